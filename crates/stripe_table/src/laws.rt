ghost use Rattle.stripe_table.specs.Laws.{Always, AllDrawn, AloneIsNeverBusy, DrawsCounted, DrawsInOrder};
ghost use Rattle.stripe_table.specs.Laws.{EachDrawnOnce};
ghost use Rattle.stripe_table.specs.Laws.{EvenIsFree, FewPieces, HomeFits, TakenFits};
ghost use Rattle.stripe_table.specs.Laws.{OddIsHeld, OneFirst, OwePieces, PutsCounted, SamePlan, SpentIsBlank};

/// What holds between any two steps of any threads: of every table that the eight kinds of step reach from the opening.
/// These say how many numbers of chunks were drawn and in which order, when a stripe is held and by how many passes, how
/// many pieces it has, that it fits the plan at home and as it was taken, and what the passes show.
pub fn every_reached_table()
    ensures draws { Always DrawsCounted }
    ensures all_drawn { Always AllDrawn }
    ensures in_order { Always DrawsInOrder }
    ensures each_once { Always EachDrawnOnce }
    ensures odd_is_held { Always OddIsHeld }
    ensures even_is_free { Always EvenIsFree }
    ensures few_pieces { Always FewPieces }
    ensures puts { Always PutsCounted }
    ensures home_fits { Always HomeFits }
    ensures taken_fits { Always TakenFits }
    ensures one_first { Always OneFirst }
    ensures spent { Always SpentIsBlank }
    ensures same_plan { Always SamePlan }
    ensures owed { Always OwePieces }
    ensures alone { Always AloneIsNeverBusy }
{}
