//! A case: what is run, and how it is to end.

use crate::blocks::Block;
use crate::content::push_content;
use crate::escapes::push_unescaped;
use crate::runs::Earlier;
use anyhow::{Context, Result, bail};
use std::alloc::{AllocError, Global};

/// The room of the output, where a case gives none.
const OUT_ROOM: usize = 100_000;

/// The room of the error output, where a case gives none.
const ERROR_ROOM: usize = 1_000;

#[derive(Drop)]
pub struct NamedFile {
    pub name: String,
    pub bytes: Vec<u8>,
}

// Whose content the next lines say.
#[derive(Clone, Copy)]
enum Part {
    Out,
    LastFile,
}

/// What is run, and how it is to end.
#[derive(Drop)]
pub struct Case {
    pub words: Vec<String>,
    pub files: Vec<NamedFile>,
    pub failing_reads: Vec<u64>,
    pub out_room: usize,
    pub error_room: usize,
    pub code: u8,
    /// The output, or what it is to begin with.
    pub out: Vec<u8>,
    pub out_is_front: bool,
    pub error: Vec<u8>,
    part: Part,
}

// A word with its escapes read; `""` is the empty word.
fn word_of(alloc: Global, text: &str) -> Result<String> {
    let mut bytes = Vec::new(alloc);
    if text != "\"\"" {
        push_unescaped(text, &mut bytes)?;
    }
    match String::from_utf8(bytes) {
        Ok(word) => Ok(word),
        Err(_) => bail!("a word is a text"),
    }
}

fn words_of(alloc: Global, text: &str) -> Result<Vec<String>> {
    let mut words = Vec::new(alloc);
    for word in text.split_whitespace() {
        words.push(word_of(alloc, word)?)?;
    }
    Ok(words)
}

impl Case {
    fn new(alloc: Global) -> Case {
        Case {
            words: Vec::new(alloc),
            files: Vec::new(alloc),
            failing_reads: Vec::new(alloc),
            out_room: OUT_ROOM,
            error_room: ERROR_ROOM,
            code: 0,
            out: Vec::new(alloc),
            out_is_front: false,
            error: Vec::new(alloc),
            part: Part::Out,
        }
    }

    // Appends the bytes of a line of content to the file or the output that stands before it.
    fn push_content(&mut self, alloc: Global, line: &str) -> Result<()> {
        match self.part {
            Part::Out => push_content(alloc, line, &mut self.out),
            Part::LastFile => {
                let file = self.files.last_mut().context("no file is begun")?;
                push_content(alloc, line, &mut file.bytes)
            }
        }
    }

    // Reads `NAME`, behind which a line of content may stand, or `NAME from TITLE`.
    fn begin_file(&mut self, alloc: Global, text: &str, earlier: &Earlier) -> Result<()> {
        let (name, rest) = text.split_once(' ').unwrap_or((text, ""));
        let mut file = NamedFile {
            name: String::from_str(alloc, name)?,
            bytes: Vec::new(alloc),
        };
        if let Some(title) = rest.strip_prefix("from ") {
            let out = earlier
                .out_of(title)
                .context("no earlier case has this title")?;
            file.bytes.extend_from_slice(out)?;
        } else if !rest.is_empty() {
            push_content(alloc, rest, &mut file.bytes)?;
        }
        self.files.push(file)?;
        self.part = Part::LastFile;
        Ok(())
    }

    fn begin_out(&mut self, alloc: Global, text: &str, is_front: bool) -> Result<()> {
        self.out.clear();
        self.out_is_front = is_front;
        self.part = Part::Out;
        if text.is_empty() {
            return Ok(());
        }
        push_content(alloc, text, &mut self.out)
    }

    // The line on the error output; none, where it is empty.
    fn set_error(&mut self, text: &str) -> Result<()> {
        self.error.clear();
        if !text.is_empty() {
            push_unescaped(text, &mut self.error)?;
            self.error.push(b'\n')?;
        }
        Ok(())
    }

    fn read_line(&mut self, alloc: Global, line: &str, earlier: &Earlier) -> Result<()> {
        let (key, rest) = line.split_once(' ').unwrap_or((line, ""));
        match key {
            "each" => {}
            "words" => self.words = words_of(alloc, rest)?,
            "file" => self.begin_file(alloc, rest, earlier)?,
            "out" => self.begin_out(alloc, rest, false)?,
            "out-front" => self.begin_out(alloc, rest, true)?,
            "|" | "+" | "repeat" => self.push_content(alloc, line)?,
            "code" => self.code = rest.parse()?,
            "error" => self.set_error(rest)?,
            "failing-read" => self.failing_reads.push(rest.parse()?)?,
            "out-room" => self.out_room = rest.parse()?,
            "error-room" => self.error_room = rest.parse()?,
            _ => bail!("no case has {key}"),
        }
        Ok(())
    }
}

// The text with a value in each place of a mark.
fn replaced(alloc: Global, text: &str, mark: &str, value: &str) -> Result<String, AllocError> {
    let mut parts = text.split(mark);
    let mut whole = String::from_str(alloc, parts.next().unwrap_or(""))?;
    for part in parts {
        whole.push_str(value)?;
        whole.push_str(part)?;
    }
    Ok(whole)
}

/// The case of a block with one of its values: its title stands for `{title}` and the value for `{each}`.
pub fn case_of(alloc: Global, block: &Block<'_>, value: &str, earlier: &Earlier) -> Result<Case> {
    let mut case = Case::new(alloc);
    for line in block.lines.as_slice() {
        let titled = replaced(alloc, line.text, "{title}", block.title)?;
        let text = replaced(alloc, titled.as_str(), "{each}", value)?;
        case.read_line(alloc, text.as_str(), earlier)
            .context(format_args!("line {}", line.number))?;
    }
    Ok(case)
}
