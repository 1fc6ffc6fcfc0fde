//! Lines on standard error, as far as they can be written.

ghost use Rattle.std.specs.Prelude.{◌++◌, ◌∷◌, [], codes};
ghost use Rattle.std.specs.Fmt.{decimal};
ghost use Rattle.operations.specs.Told.{number_told, place_told};
ghost use Rattle.operations.specs.Written.{WritesBeginning};

use std::io::Write;
use texts::write_whole;

/// Writes a line feed, where it can be written.
fn end_line<E: Write>(errors: &mut E)
    ensures { WritesBeginning (E.contents errors.old) (E.contents errors.new) (10 ∷ []) }
{
    let _ = write_whole(errors, b"\n");
}

/// Writes a line and its line feed, as far as it can be written.
pub fn tell_line<E: Write>(errors: &mut E, line: &str)
    ensures { WritesBeginning (E.contents errors.old) (E.contents errors.new)
        (line.now ++ 10 ∷ []) }
{
    match write_whole(errors, line.as_bytes()) {
        Ok(()) => end_line(errors),
        Err(_) => {}
    }
}

/// Writes a number and a line feed.
fn tell_last<E: Write>(errors: &mut E, number: u64)
    ensures { WritesBeginning (E.contents errors.old) (E.contents errors.new)
        (decimal number ++ 10 ∷ []) }
{
    let mut digits = itoa::Buffer::new();
    let text = digits.format(number);
    tell_line(errors, text)
}

/// Writes at which record a fault is, and a line feed.
fn tell_record<E: Write>(errors: &mut E, place: u64)
    ensures { WritesBeginning (E.contents errors.old) (E.contents errors.new)
        (codes " at record " ++ (decimal place ++ 10 ∷ [])) }
{
    match write_whole(errors, b" at record ") {
        Ok(()) => tell_last(errors, place),
        Err(_) => {}
    }
}

/// Ends a line, with the record that a fault is at where it is at one.
fn tell_place<E: Write>(errors: &mut E, place: Option<u64>)
    ensures { WritesBeginning (E.contents errors.old) (E.contents errors.new)
        (place_told place ++ 10 ∷ []) }
{
    match place {
        None => end_line(errors),
        Some(place) => tell_record(errors, place),
    }
}

/// Writes the number of a fault, and what follows it.
fn tell_digits<E: Write>(errors: &mut E, number: u8, place: Option<u64>)
    ensures { WritesBeginning (E.contents errors.old) (E.contents errors.new)
        (decimal number ++ (place_told place ++ 10 ∷ [])) }
{
    let mut digits = itoa::Buffer::new();
    let text = digits.format(number);
    match write_whole(errors, text.as_bytes()) {
        Ok(()) => tell_place(errors, place),
        Err(_) => {}
    }
}

/// Writes a space, the number of a fault, and what follows it.
fn tell_number<E: Write>(errors: &mut E, number: u8, place: Option<u64>)
    ensures { WritesBeginning (E.contents errors.old) (E.contents errors.new)
        (32 ∷ (decimal number ++ (place_told place ++ 10 ∷ []))) }
{
    match write_whole(errors, b" ") {
        Ok(()) => tell_digits(errors, number, place),
        Err(_) => {}
    }
}

/// Ends a line, with the number of a fault where it has one.
fn tell_end<E: Write>(errors: &mut E, number: Option<u8>, place: Option<u64>)
    ensures { WritesBeginning (E.contents errors.old) (E.contents errors.new)
        (number_told number ++ (place_told place ++ 10 ∷ [])) }
{
    match number {
        None => tell_place(errors, place),
        Some(number) => tell_number(errors, number, place),
    }
}

/// Reports a fault by its line, its number where it has one, the record of a file that it is at
/// where it is one of that, and a line feed, as far as they can be written. It takes no memory.
pub fn tell_fault<E: Write>(errors: &mut E, line: &str, number: Option<u8>, place: Option<u64>)
    ensures { WritesBeginning (E.contents errors.old) (E.contents errors.new)
        (((line.now ++ number_told number) ++ place_told place) ++ 10 ∷ []) }
{
    match write_whole(errors, line.as_bytes()) {
        Ok(()) => tell_end(errors, number, place),
        Err(_) => {}
    }
}
