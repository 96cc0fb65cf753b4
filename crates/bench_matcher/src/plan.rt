//! The plan by which filters and notifications are generated.
ghost use Rattle.std.specs.Prelude.{◌+◌, ◌<◌, ◌≤◌};

/// Of what kinds the values and the constraints are.
#[derive(Clone, Copy, Debug, PartialEq, Eq)]
pub enum Subject {
    /// Half are int, a tenth bool, the rest str, and a tenth of the values and of the constraints are of another kind than
    /// most of their name. Of the operators of int `=` is three in five, `<` and `>` one in five each, with limits that a
    /// quarter of the numbers pass; of str `=` is four in seven, prefix, suffix and contains one in seven each; of bool
    /// `=` is all.
    Usual,
    /// Half are int, a tenth bool and the rest str; a third of the operators are `=`. A tenth of the values and of the
    /// constraints are of another kind than most of their name.
    Mixed,
    /// Constraints are on int alone, with all its operators alike. A tenth of the values are str.
    Numbers,
    /// All is str, with prefix, suffix, contains and `=` alike.
    Texts,
}

/// How filters and notices are made.
#[derive(Clone, Copy)]
pub struct Plan {
    /// Of what kinds the values and the constraints are.
    pub subject: Subject,
    /// The most constraints of a filter.
    pub constraints: usize,
    /// How many names the filters speak of.
    pub names: usize,
    /// How many further names the notices have.
    pub further: usize,
    /// The attributes of a notice.
    pub attributes: usize,
    /// Numbers are below this.
    pub numbers: usize,
    /// Words of the vocabulary.
    pub words: usize,
    /// Words are of so many consonants, and at most as many vowels.
    pub letters: usize,
    /// The most words of a text.
    pub joined: usize,
    /// Whether one number and one text in eight is at an end of its kind.
    pub ends: bool,
    ghost some_constraints: { 0 < constraints },
    ghost some_names: { 0 < names },
    ghost known_names: { names + further ≤ 24 },
    ghost some_numbers: { 0 < numbers },
    ghost few_numbers: { numbers ≤ 1000 },
    ghost some_letters: { 0 < letters },
    ghost known_letters: { letters ≤ 16 },
    ghost some_words: { 0 < joined },
}
