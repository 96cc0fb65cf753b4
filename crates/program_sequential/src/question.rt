//! The question that the words of `explain` ask.
ghost use Rattle.std.specs.Prelude.{◌≡◌};
ghost use Rattle.program_sequential.specs.Words.{ordinal_number, question_by};

use crate::words::Word;
use document_script::{are_digits, short_digits};
use std::marker::Model;

/// What a client gets of a publication, as a question about a document: both clients by their names. Contracts see the names
/// and the number.
#[derive(Drop)]
pub struct Question<'w> {
    client: &'w [u8],
    publisher: &'w [u8],
    ordinal: u32,
}

impl<'w> Model for Question<'w> {
    ghost use Rattle.output_explain.specs.Asked.{Question as Asked};

    ghost Value = { Asked };

    ghost view = { λ q. record { client = q.client.now; publisher = q.publisher.now; ordinal = q.ordinal } };
}

impl<'w> Question<'w> {
    ghost use Rattle.std.specs.Prelude.{◌≡◌};
    ghost use Rattle.program_sequential.specs.Asking.{question_of};

    /// The question with these names and this number.
    fn of(client: &'w [u8], publisher: &'w [u8], ordinal: u32) -> Question<'w>
        ensures { result ≡ question_of client.now publisher.now ordinal }
    {
        Question {
            client,
            publisher,
            ordinal,
        }
    }

    /// The name of the client.
    pub fn client(&self) -> &'w [u8]
        ensures { result.now ≡ self.now.client }
    {
        self.client
    }

    /// The name of the publisher.
    pub fn publisher(&self) -> &'w [u8]
        ensures { result.now ≡ self.now.publisher }
    {
        self.publisher
    }

    /// The number of the publication among the publisher's, from 1.
    pub fn ordinal(&self) -> u32
        ensures { result ≡ self.now.ordinal }
    {
        self.ordinal
    }
}

// The number below 2^32 that the word spells in 1 to 10 digits.
#[tactic(auto, unfolding(crate::specs::Words::ordinal_number))]
fn ordinal(word: &[u8]) -> Option<u32>
    ensures { result ≡ ordinal_number word.now }
{
    if word.len() > 10 || !are_digits(word) {
        return None;
    }
    match short_digits(word) {
        Some(number) if number < 4_294_967_296 => Some(number as u32),
        _ => None,
    }
}

/// The question of three words, where the last is a number.
pub fn read_question<'w>(
    client: &'w Word,
    publisher: &'w Word,
    number: &Word,
) -> Option<Question<'w>>
    ensures { result ≡ question_by client.now publisher.now number.now }
{
    match ordinal(number.as_slice()) {
        Some(ordinal) => Some(Question::of(client.as_slice(), publisher.as_slice(), ordinal)),
        None => None,
    }
}
