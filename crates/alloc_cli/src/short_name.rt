// A name among the words.
ghost use Rattle.std.specs.Prelude.{◌≡◌, IfSome};
ghost use Rattle.alloc_cli.specs.ShortNames.{name_text, short_name_of, IsShortName};

use table_text::{lawful_name, name_of};

/// A lawful name, kept in place, since a command takes no memory. The bytes after its length are 0.
#[derive(Clone, Copy, Debug, PartialEq, Eq)]
pub struct ShortName {
    pub bytes: [u8; 64],
    pub length: u8,
}

impl ShortName {
    /// The name that a word is, and `None` where it isn't lawful.
    pub fn of(word: &str) -> Option<ShortName>
        ensures value { result ≡ short_name_of word.now }
        ensures text { IfSome result (λ name. name_text name ≡ word.now) }
        ensures lawful { IfSome result IsShortName }
    {
        let word = word.as_bytes();
        if !lawful_name(word) {
            return None;
        }
        let mut bytes = [0; 64];
        bytes[..word.len()].copy_from_slice(word);
        Some(ShortName {
            bytes,
            length: word.len() as u8,
        })
    }

    /// The name.
    pub fn text(&self) -> &str
        requires { IsShortName self.now }
        ensures { result.now ≡ name_text self.now }
    {
        match name_of(&self.bytes[..self.length as usize]) {
            Some(name) => name,
            None => unreachable!(),
        }
    }
}
