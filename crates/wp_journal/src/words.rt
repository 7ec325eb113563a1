//! The words of a line.
ghost use Rattle.std.specs.Prelude.{◌≡◌, IfOk};
ghost use Rattle.std.specs.List.{position_or_len};
ghost use Rattle.wp_journal.specs.Splits.{after_arrow, before_arrow, is_arrow, words_now, words_of};

use std::alloc::{AllocError, Global};

/// The words of a text, with a space between each two.
pub fn words_of(alloc: Global, text: &[u8]) -> Result<Vec<&[u8]>, AllocError>
    ensures { IfOk result (λ words. words_now words.items ≡ words_of text.now) }
{
    text.split(|byte| *byte == b' ').collect(alloc)
}

fn is_arrow(word: &[u8]) -> bool
    ensures { result ≡ is_arrow word.now }
{
    word == b"->".as_slice()
}

fn arrow_at(words: &[&[u8]]) -> usize
    ensures { result ≡ position_or_len is_arrow (words_now words.now) }
{
    for (at, word) in words.iter().enumerate() {
        if is_arrow(word) {
            return at;
        }
    }
    words.len()
}

/// The words before the arrow, and those after it; all words, and none, where there is no arrow.
pub fn split_at_arrow<'a, 'b>(words: &'a [&'b [u8]]) -> (&'a [&'b [u8]], &'a [&'b [u8]])
    ensures before { words_now result.0.now ≡ before_arrow (words_now words.now) }
    ensures after { words_now result.1.now ≡ after_arrow (words_now words.now) }
{
    let at = arrow_at(words);
    if at < words.len() {
        (&words[..at], &words[at + 1..])
    } else {
        (words, &[])
    }
}
