//! The rule of the table, and what each of its atomic operations does to a pass.
use crate::stripe::Stripe;
use crate::view::{ExpandedPlan, PassView};
use atomic_table::{Join, Play, Split, TableRule};
use ghost_value::GhostValue;

/// A table is always one that the eight kinds of step reach.
pub struct StripeRule;

impl TableRule<Stripe, PassView, GhostValue<ExpandedPlan>> for StripeRule {
    ghost use Rattle.stripe_table.specs.Machine.{Reached};
    ghost use Rattle.stripe_table.specs.Views.{first_view};

    ghost holds = { λ key. Reached key.value };

    ghost first = { λ key. first_view key.value };
}

/// Draws a number.
pub(crate) struct Draw;

impl Play<Stripe, PassView> for Draw {
    ghost use Rattle.stripe_table.specs.private.Plays.{claims};

    ghost then = { claims };
}

/// Reads a stripe's word.
pub(crate) struct ReadWord;

impl Play<Stripe, PassView> for ReadWord {
    ghost use Rattle.stripe_table.specs.private.Plays.{looks};

    ghost then = { looks };
}

/// Takes a free stripe, or finds it changed.
pub(crate) struct Exchange;

impl Play<Stripe, PassView> for Exchange {
    ghost use Rattle.stripe_table.specs.private.Plays.{takes};

    ghost then = { takes };
}

/// Puts back a stripe with one more piece.
pub(crate) struct PutLonger;

impl Play<Stripe, PassView> for PutLonger {
    ghost use Rattle.stripe_table.specs.private.Plays.{puts};

    ghost then = { puts };
}

/// Puts back a stripe unchanged.
pub(crate) struct PutBack;

impl Play<Stripe, PassView> for PutBack {
    ghost use Rattle.stripe_table.specs.private.Plays.{puts_back};

    ghost then = { puts_back };
}

/// Puts back a stripe that names the chunk already.
pub(crate) struct PutPresent;

impl Play<Stripe, PassView> for PutPresent {
    ghost use Rattle.stripe_table.specs.private.Plays.{meets};

    ghost then = { meets };
}

/// Makes a pass, or takes one in.
pub(crate) struct Fork;

impl Split<PassView> for Fork {
    ghost use Rattle.std.specs.Prelude.{false};
    ghost use Rattle.stripe_table.specs.Views.{after_split, fresh_view};

    ghost left = { after_split };

    ghost right = { λ v. fresh_view false v.plan };
}

impl Join<PassView> for Fork {
    ghost use Rattle.stripe_table.specs.Views.{after_join, spent_view};

    ghost both = { after_join };

    ghost spent = { spent_view };
}
