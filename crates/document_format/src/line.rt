//! Writes lines of a few words to a sink.
ghost use Rattle.std.specs.Prelude.{◌≡◌, ◌++◌, ◌∷◌};
ghost use Rattle.std.specs.Fmt.{decimal};
ghost use Rattle.base_devices.specs.Pending.{outlet, Went};
ghost use Rattle.document_format.specs.DocumentText.{ended};

use base_devices::{Pending, Sink};
use itoa::Buffer;

/// A number in decimal.
pub(crate) fn put_number<K: Sink>(out: &mut Pending, sink: &mut K, number: u64)
    ensures { Went (outlet (K.state sink.old) out.old) (outlet (K.state sink.new) out.new) (decimal number) }
{
    let mut buffer = Buffer::new();
    out.put(sink, buffer.format(number).as_bytes())
}

/// A line: words with the space behind them, and a word.
pub(crate) fn put_line<K: Sink>(out: &mut Pending, sink: &mut K, words: &[u8], word: &[u8])
    ensures { Went (outlet (K.state sink.old) out.old) (outlet (K.state sink.new) out.new)
        (ended (words.now ++ word.now)) }
{
    out.put(sink, words);
    out.put(sink, word);
    out.put(sink, b"\n")
}

/// A line: words with the space behind them, and a number.
pub(crate) fn put_numbered<K: Sink>(out: &mut Pending, sink: &mut K, words: &[u8], number: u32)
    ensures { Went (outlet (K.state sink.old) out.old) (outlet (K.state sink.new) out.new)
        (ended (words.now ++ decimal number)) }
{
    out.put(sink, words);
    put_number(out, sink, u64::from(number));
    out.put(sink, b"\n")
}

/// A line: words with the space behind them, a word and a number.
pub(crate) fn put_named<K: Sink>(
    out: &mut Pending,
    sink: &mut K,
    words: &[u8],
    word: &[u8],
    number: u32,
)
    ensures { Went (outlet (K.state sink.old) out.old) (outlet (K.state sink.new) out.new)
        (ended (words.now ++ word.now ++ 32 ∷ decimal number)) }
{
    out.put(sink, words);
    out.put(sink, word);
    out.put(sink, b" ");
    put_number(out, sink, u64::from(number));
    out.put(sink, b"\n")
}

/// A line: words with the space behind them, and two numbers.
pub(crate) fn put_pair<K: Sink>(out: &mut Pending, sink: &mut K, words: &[u8], a: u32, b: u32)
    ensures { Went (outlet (K.state sink.old) out.old) (outlet (K.state sink.new) out.new)
        (ended (words.now ++ decimal a ++ 32 ∷ decimal b)) }
{
    out.put(sink, words);
    put_number(out, sink, u64::from(a));
    out.put(sink, b" ");
    put_number(out, sink, u64::from(b));
    out.put(sink, b"\n")
}
