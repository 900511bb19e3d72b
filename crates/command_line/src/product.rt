//! What a command makes.
ghost use Rattle.std.specs.Prelude.{◌≡◌, []};
ghost use Rattle.command_line.specs.Product.{no_product, only_text};

use prof_bytes::Text;
use std::alloc::Global;

/// What a command makes: the bytes of the file that it stores, where it stores one, and the text that it puts.
#[derive(Drop)]
pub struct Product {
    pub stored: Text,
    pub text: Text,
}

/// A text of no bytes.
pub fn no_text(alloc: Global) -> Text
    ensures { result ≡ [] }
{
    Text::from_vec(Vec::new(alloc))
}

/// A text that is put; nothing is stored.
pub fn text_alone(alloc: Global, text: Text) -> Product
    ensures { result ≡ only_text text }
{
    Product {
        stored: no_text(alloc),
        text,
    }
}

/// Nothing at all.
pub fn nothing(alloc: Global) -> Product
    ensures { result ≡ no_product }
{
    text_alone(alloc, no_text(alloc))
}
