// Texts whose repeated lines and parts are written out.
//
// `*3 LINE` is the line three times, and `<3 PART>` the part three times. `[A*600]` is 600 letters `A`. `{10+2}` is 10
// at the first time, 12 at the second, and so on.
use std::alloc::Global;
use std::test::Fail;

// The letters of `A*600`.
fn add_letters(out: &mut String, letters: &str) -> Result<(), Fail> {
    let (letter, count) = letters.split_once('*').ok_or("letters without a count")?;
    for _ in 0..number_of(count)? {
        out.push_str(letter)?;
    }
    Ok(())
}

fn add_text(out: &mut String, text: &str) -> Result<(), Fail> {
    for part in text.split('[') {
        match part.split_once(']') {
            Some((letters, rest)) => {
                add_letters(out, letters)?;
                out.push_str(rest)?;
            }
            None => out.push_str(part)?,
        }
    }
    Ok(())
}

/// A word and a number behind what stands there.
pub(super) fn add(alloc: Global, out: &mut String, word: &str, number: u64) -> Result<(), Fail> {
    out.push_str(word)?;
    out.push_str(number.to_string(alloc)?.as_str())?;
    Ok(())
}

fn number_of(text: &str) -> Result<u64, Fail> {
    Ok(text.parse::<u64>()?)
}

// A number that grows by a step, at a time. It stands alone, since its proof is dear beside texts.
fn at(first: u64, step: u64, time: u64) -> u64 {
    first.wrapping_add(step.wrapping_mul(time))
}

// What `10+2` is at a time, counted from 0.
fn add_number(alloc: Global, out: &mut String, number: &str, time: u64) -> Result<(), Fail> {
    let (first, step) = number.split_once('+').ok_or("a number without a step")?;
    let number = at(number_of(first)?, number_of(step)?, time);
    add(alloc, out, "", number)
}

fn add_numbers(alloc: Global, out: &mut String, text: &str, time: u64) -> Result<(), Fail> {
    for part in text.split('{') {
        match part.split_once('}') {
            Some((number, rest)) => {
                add_number(alloc, out, number, time)?;
                add_text(out, rest)?;
            }
            None => add_text(out, part)?,
        }
    }
    Ok(())
}

// The part of `3 PART`.
fn add_part(alloc: Global, out: &mut String, part: &str) -> Result<(), Fail> {
    let (count, part) = part.split_once(' ').ok_or("a part without a count")?;
    for time in 0..number_of(count)? {
        add_numbers(alloc, out, part, time)?;
    }
    Ok(())
}

fn add_parts(alloc: Global, out: &mut String, line: &str, time: u64) -> Result<(), Fail> {
    for part in line.split('<') {
        match part.split_once('>') {
            Some((repeated, rest)) => {
                add_part(alloc, out, repeated)?;
                add_numbers(alloc, out, rest, time)?;
            }
            None => add_numbers(alloc, out, part, time)?,
        }
    }
    Ok(())
}

// A line so many times.
fn add_lines(alloc: Global, out: &mut String, line: &str, count: u64) -> Result<(), Fail> {
    for time in 0..count {
        add_parts(alloc, out, line, time)?;
        out.push_str("\n")?;
    }
    Ok(())
}

fn add_line(alloc: Global, out: &mut String, line: &str) -> Result<(), Fail> {
    match line.strip_prefix('*') {
        Some(repeated) => {
            let (count, line) = repeated.split_once(' ').ok_or("a line without a count")?;
            add_lines(alloc, out, line, number_of(count)?)
        }
        None => add_lines(alloc, out, line, 1),
    }
}

/// The text, each of its lines ended.
pub(super) fn written_out(alloc: Global, text: &str) -> Result<String, Fail> {
    let mut out = String::new(alloc);
    for line in text.split('\n') {
        add_line(alloc, &mut out, line)?;
    }
    Ok(out)
}
