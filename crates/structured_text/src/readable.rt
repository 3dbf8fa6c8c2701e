//! A path as the middle of an identifier, and in a comment.
ghost use Rattle.std.specs.Prelude.{◌≡◌, ◌++◌, ◌≤◌, true, drop, length, OnOk};
ghost use Rattle.structured_text.specs.Spelling.{is_word, readable, has_slash, is_short, last_name, shown, shown_byte};
ghost use Rattle.structured_text.specs.Spelling.{row_break, row_length};
ghost use Rattle.structured_text.specs.Width.{continues};

use ilk_base::{Memory, Text};

// The most characters of a path in a row.
const ROW: usize = 80;

// Whether the byte is an ASCII letter or digit.
fn is_word_byte(byte: u8) -> bool
    ensures { result ≡ is_word byte }
{
    if byte < 48 {
        return false;
    }
    if byte < 58 {
        return true;
    }
    if byte < 65 {
        return false;
    }
    if byte < 91 {
        return true;
    }
    if byte < 97 {
        return false;
    }
    byte < 123
}

/// Appends the runs of ASCII letters and digits of a path from a place on, each behind one `_`.
pub(crate) fn push_readable(text: &mut Text, path: &[u8], start: usize) -> Result<(), Memory>
    requires { start ≤ length path.now }
    ensures { OnOk result (text.new ≡ text.old ++ readable true (drop start path.now)) }
{
    let mut gap = true;
    for i in start..path.len() {
        let byte = path[i];
        if is_word_byte(byte) {
            if gap {
                text.push(b"_")?;
            }
            text.push(&[byte])?;
            gap = false;
        } else {
            gap = true;
        }
    }
    Ok(())
}

// Whether there is a `/` from a place on.
fn slash_from(path: &[u8], start: usize) -> bool
    requires { start ≤ length path.now }
    ensures { result ≡ has_slash (drop start path.now) }
{
    for i in start..path.len() {
        if path[i] == 47 {
            return true;
        }
    }
    false
}

// Whether what is from a place on is short, and has no `/`.
fn is_short_from(path: &[u8], start: usize) -> bool
    requires { start ≤ length path.now }
    ensures { result ≡ is_short (drop start path.now) }
{
    path.len() - start < 14 && !slash_from(path, start)
}

/// Where the last name of a path begins.
pub(crate) fn last_name_start(path: &[u8]) -> usize
    ensures within { result ≤ length path.now }
    ensures value { drop result path.now ≡ last_name path.now }
{
    for i in 0..path.len() {
        if is_short_from(path, i) {
            return i;
        }
    }
    path.len()
}

// The byte as a comment shows it.
fn shown_of(byte: u8) -> u8
    ensures { result ≡ shown_byte byte }
{
    if byte < 32 {
        return 95;
    }
    if byte == 42 { 95 } else { byte }
}

// Whether the byte continues a character of UTF-8.
fn is_continued(byte: u8) -> bool
    ensures { result ≡ continues byte }
{
    if 127 < byte { byte < 192 } else { false }
}

// Appends what stands before a byte behind so many characters of a row.
fn push_break(text: &mut Text, count: usize, byte: u8) -> Result<(), Memory>
    ensures { OnOk result (text.new ≡ text.old ++ row_break count byte) }
{
    if is_continued(byte) {
        return Ok(());
    }
    if count < ROW {
        return Ok(());
    }
    text.push(b"\n     ")
}

// How many characters the row has behind the byte.
fn next_length(count: usize, byte: u8) -> usize
    ensures { result ≡ row_length count byte }
{
    if is_continued(byte) {
        return count;
    }
    if count < ROW { count + 1 } else { 1 }
}

/// Appends a path, in rows that are not long, with `_` for what would end a comment.
pub(crate) fn push_shown(text: &mut Text, path: &[u8]) -> Result<(), Memory>
    ensures { OnOk result (text.new ≡ text.old ++ shown path.now) }
{
    let mut count = 0;
    for i in 0..path.len() {
        push_break(text, count, path[i])?;
        text.push(&[shown_of(path[i])])?;
        count = next_length(count, path[i]);
    }
    Ok(())
}
