// What the lines of a case ask for, and what they say of the wires and of what is said.
//
// `words` are those of the command line; each line of `either` has the last ones of a run, and there is a run for each.
// `file` begins a file, and `wire` what the wire of that number is sent. To either `ask` adds a request, `line` a line,
// `text` a text, `fill` a text so many times, and `frame` a frame of that call, index and count; `front` leaves so many
// of its bytes. `reads` has a file's number, how long its reads are and which of them fail; `steps` are lengths of the
// first file's reads, and there is a run for each. `wires` is how many there are, `counted` of those that only count.
// `put fails` has a wire's number and the puts on it that fail, `host fails` the opens and says, counted together. In a
// text `~` stands for the end of a line of requests, and `|` for that of a schedule.
use super::written::add;
use flake_base::{Bytes, Fails, Files};
use std::alloc::Global;
use std::test::Fail;

fn add_numbers(numbers: &mut Fails, text: &str) -> Result<(), Fail> {
    for word in text.split(' ') {
        numbers.push(word.parse::<u64>()?)?;
    }
    Ok(())
}

/// The numbers of the lines that begin so.
pub(super) fn numbers_of(alloc: Global, case: &str, start: &str) -> Result<Fails, Fail> {
    let mut numbers = Fails::new(alloc);
    for line in case.split('\n') {
        if let Some(rest) = line.strip_prefix(start) {
            add_numbers(&mut numbers, rest)?;
        }
    }
    Ok(numbers)
}

fn add_words(alloc: Global, words: &mut Vec<String>, text: &str) -> Result<(), Fail> {
    for word in text.split(' ') {
        words.push(String::from_str(alloc, word)?)?;
    }
    Ok(())
}

/// The words of the command line, of which these are the last ones.
pub(super) fn words_of(alloc: Global, case: &str, last: Option<&str>) -> Result<Vec<String>, Fail> {
    let mut words = Vec::new(alloc);
    for line in case.split('\n') {
        if let Some(text) = line.strip_prefix("words ") {
            add_words(alloc, &mut words, text)?;
        }
    }
    if let Some(text) = last {
        add_words(alloc, &mut words, text)?;
    }
    Ok(words)
}

fn add_text(out: &mut Bytes, text: &str) -> Result<(), Fail> {
    for byte in text.bytes() {
        match byte {
            b'~' => out.append(b"\r\n")?,
            b'|' => out.push(b'\n')?,
            _ => out.push(byte)?,
        }
    }
    Ok(())
}

fn add_word(alloc: Global, request: &mut String, word: &str) -> Result<(), Fail> {
    add(alloc, request, "$", word.len() as u64)?;
    request.push_str("\r\n")?;
    request.push_str(word)?;
    request.push_str("\r\n")?;
    Ok(())
}

// A request of a line's words, of which `''` has no byte.
fn add_request(alloc: Global, out: &mut Bytes, line: &str) -> Result<(), Fail> {
    let mut request = String::new(alloc);
    add(alloc, &mut request, "*", line.split(' ').count() as u64)?;
    request.push_str("\r\n")?;
    for word in line.split(' ') {
        add_word(alloc, &mut request, if word == "''" { "" } else { word })?;
    }
    out.append(request.as_bytes())?;
    Ok(())
}

// The text of `3 TEXT`, so many times.
fn fill(alloc: Global, out: &mut Bytes, text: &str) -> Result<(), Fail> {
    let (count, text) = text.split_once(' ').ok_or("a text without a count")?;
    let mut bytes = Bytes::new(alloc);
    add_text(&mut bytes, text)?;
    for _ in 0..count.parse::<u64>()? {
        out.append(bytes.as_slice())?;
    }
    Ok(())
}

// A number of a frame's head, and what stands behind it.
fn add_head<'a>(out: &mut Bytes, text: &'a str) -> Result<&'a str, Fail> {
    let (number, rest) = text.split_once(' ').ok_or("a frame without its numbers")?;
    out.append(&number.parse::<u32>()?.to_le_bytes())?;
    Ok(rest)
}

/// The frame of `CALL INDEX COUNT TEXT`: these three numbers and the text's length, and two bytes that are 0, with the
/// least byte of each number first, and the text.
pub(super) fn add_frame(alloc: Global, out: &mut Bytes, text: &str) -> Result<(), Fail> {
    let mut rest = text;
    for _ in 0..3 {
        rest = add_head(out, rest)?;
    }
    let mut part = Bytes::new(alloc);
    add_text(&mut part, rest)?;
    let len = u16::try_from(part.len())
        .ok()
        .ok_or("a frame that is too long")?;
    out.append(&len.to_le_bytes())?;
    out.append(&[0, 0])?;
    out.append(part.as_slice())?;
    Ok(())
}

fn add_content(alloc: Global, out: &mut Bytes, line: &str) -> Result<(), Fail> {
    match line.split_once(' ') {
        Some(("ask", request)) => add_request(alloc, out, request),
        Some(("line", text)) => {
            out.append(text.as_bytes())?;
            out.push(b'\n')?;
            Ok(())
        }
        Some(("text", text)) => add_text(out, text),
        Some(("fill", text)) => fill(alloc, out, text),
        Some(("frame", text)) => add_frame(alloc, out, text),
        Some(("front", count)) => {
            out.truncate(count.parse::<usize>()?);
            Ok(())
        }
        _ => Ok(()),
    }
}

// Whether a line begins a file or what a wire is sent.
fn is_start(line: &str) -> bool {
    line.starts_with("file ") || line.starts_with("wire ")
}

/// What begins so, `file ` or `wire `: its name, and its bytes.
pub(super) fn contents_of(alloc: Global, case: &str, start: &str) -> Result<Files, Fail> {
    let mut contents = Files::with_room(alloc, 18)?;
    let mut is_open = false;
    for line in case.split('\n') {
        if let Some(name) = line.strip_prefix(start) {
            contents.push((String::from_str(alloc, name)?, Bytes::new(alloc)))?;
            is_open = true;
        } else if is_start(line) {
            is_open = false;
        } else if is_open && let Some((name, mut content)) = contents.pop() {
            add_content(alloc, &mut content, line)?;
            contents.push((name, content))?;
        }
    }
    Ok(contents)
}

/// The lines that begin with one of these words, each without that.
pub(super) fn lines_of(alloc: Global, case: &str, one: &str, other: &str) -> Result<String, Fail> {
    let mut lines = String::new(alloc);
    for line in case.split('\n') {
        if let Some((word, rest)) = line.split_once(' ')
            && (word == one || word == other)
        {
            lines.push_str(rest)?;
            lines.push_str("\n")?;
        }
    }
    Ok(lines)
}

/// What the wires are sent: the number of each that is sent something, and that.
pub(super) fn sent_of(alloc: Global, case: &str) -> Result<Bytes, Fail> {
    let mut sent = Bytes::new(alloc);
    add_text(&mut sent, lines_of(alloc, case, "sent", "sent")?.as_str())?;
    for (number, bytes) in contents_of(alloc, case, "wire ")?.into_vec() {
        if !bytes.is_empty() {
            sent.append(number.as_bytes())?;
            sent.append(b" ")?;
            sent.append(bytes.as_slice())?;
            sent.append(b"\n")?;
        }
    }
    Ok(sent)
}

// So many lines, and half of the next.
fn front_of(alloc: Global, text: &str, lines: u64) -> Result<Bytes, Fail> {
    let mut front = Bytes::new(alloc);
    let mut number = 0u64;
    for line in text.split('\n') {
        let before = front.len();
        front.append(line.as_bytes())?;
        front.append(b"\n")?;
        if number == lines {
            let half = front.len().saturating_sub(before) / 2;
            front.truncate(before.saturating_add(half));
            return Ok(front);
        }
        number = number.saturating_add(1);
    }
    Ok(front)
}

/// What is said. `whole` is how many of its lines are said before a say that fails, which says half of the next; `half`
/// has the first half of what a single say says.
pub(super) fn said_of(alloc: Global, case: &str) -> Result<Bytes, Fail> {
    let said = lines_of(alloc, case, "said", "both")?;
    if let Some(lines) = numbers_of(alloc, case, "whole ")?.pop() {
        return front_of(alloc, said.as_str(), lines);
    }
    let mut bytes = Bytes::from_slice(alloc, said.as_bytes())?;
    if case.split('\n').any(|line| line == "half") {
        bytes.truncate(said.len() / 2);
    }
    Ok(bytes)
}
