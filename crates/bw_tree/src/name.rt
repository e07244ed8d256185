//! Name of a group.
ghost use Rattle.std.specs.Prelude.{◌≡◌, ◌≤◌, length, IfOk, IsOk};

use crate::limits::MAX_SHORT_NAME;
use arrayvec::ArrayString;
use std::alloc::{AllocError, Global};
use std::marker::Model;

/// Name of a group: any text. It takes memory only above [`MAX_SHORT_NAME`] bytes.
#[derive(Debug, Drop)]
pub struct Name {
    text: Text,
}

// Text of a name. A short one is stored in place, so most groups take no block of the heap.
#[derive(Debug, Drop)]
enum Text {
    Short(ArrayString<MAX_SHORT_NAME>),
    Long(String),
}

impl Model for Name {
    ghost use Rattle.std.specs.Prelude.{List, ℕ};
    ghost use Rattle.bw_tree.specs.Names.{text_bytes};

    ghost Value = { List ℕ };

    ghost view = { λ n. text_bytes n.text };
}

impl Clone for Name {
    ghost is_clone = { λ n m. m ≡ n };

    fn clone(&self) -> Result<Name, AllocError> {
        match &self.text {
            Text::Short(text) => Ok(Name {
                text: Text::Short(*text),
            }),
            Text::Long(text) => Ok(Name {
                text: Text::Long(text.clone()?),
            }),
        }
    }
}

impl Name {
    /// Makes a name of a text. It allocates only above [`MAX_SHORT_NAME`] bytes.
    ///
    /// # Errors
    ///
    /// - [`AllocError`] if an allocation fails: never up to [`MAX_SHORT_NAME`] bytes.
    pub fn new(alloc: Global, name: &str) -> Result<Name, AllocError>
        ensures bytes { IfOk result (λ n. n ≡ name.now) }
        ensures short { length name.now ≤ MAX_SHORT_NAME → IsOk result }
    {
        if name.len() <= MAX_SHORT_NAME {
            return Ok(Name::short(name));
        }
        Ok(Name {
            text: Text::Long(String::from_str(alloc, name)?),
        })
    }

    // Name that is stored in place.
    fn short(name: &str) -> Name
        requires { length name.now ≤ MAX_SHORT_NAME }
        ensures { result ≡ name.now }
    {
        let mut text = ArrayString::new();
        text.push_str(name);
        Name {
            text: Text::Short(text),
        }
    }

    /// Text of the name.
    pub fn as_str(&self) -> &str
        ensures value { result.now ≡ self.now }
    {
        match &self.text {
            Text::Short(text) => text.as_str(),
            Text::Long(text) => text.as_str(),
        }
    }
}
