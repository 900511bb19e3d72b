//! `struct`: the structure of a program.
ghost use Rattle.std.specs.Prelude.{◌≤◌, [], ◌∷◌, length};
ghost use Rattle.command_line.specs.declared.kind.FileKind.TheVariants as kinds;
ghost use Rattle.prof_bytes.specs.Outcome.{Gives};
ghost use Rattle.program_run.specs.commands.Structure.{listed_code, struct_makes, struct_product};
ghost use Rattle.command_line.specs.Kind.{AreWithin};
ghost use Rattle.command_line.specs.Kind.{program_limit};

use crate::program::program_of;
use crate::scopes::scopes_of;
use command_line::{InputFault, Product, nothing, text_alone};
use elf_image::Image;
use prof_bytes::{Fail, Text};
use std::alloc::Global;
use struct_listing::listing;

/// The structure of a program, or the first refusal of its debug information.
fn list_code(alloc: Global, image: &Image<'_>) -> Result<Product, Fail<InputFault>>
    ensures { Gives (λ p. p) result (listed_code image.now) }
{
    let (lines, structure) = scopes_of(alloc, image)?;
    let text = listing(alloc, &structure, &lines, image)?;
    Ok(text_alone(alloc, text))
}

/// The structure of a program, or the first refusal of its file.
#[tactic(auto, unfolding(crate::specs::commands::Structure::struct_product))]
fn list_structure(alloc: Global, elf: &[u8]) -> Result<Product, Fail<InputFault>>
    requires { length elf.now ≤ program_limit }
    ensures { Gives (λ p. p) result (struct_product elf.now) }
{
    let image = program_of(alloc, elf)?;
    list_code(alloc, &image)
}

/// What `struct` makes of its file.
pub fn make(alloc: Global, texts: &[Text]) -> Result<Product, Fail<InputFault>>
    requires files { AreWithin texts.now (kinds.Program ∷ []) }
    ensures { Gives (λ p. p) result (struct_makes texts.now) }
{
    let [elf] = texts else {
        return Ok(nothing(alloc));
    };
    list_structure(alloc, elf.bytes())
}
