//! The words of the command line.

ghost use Rattle.std.specs.Prelude.{◌≡◌, ◌≤◌, true, IfOk, length, map, option_map, string_bytes};
ghost use Rattle.std.specs.List.{list_all, list_any};
ghost use Rattle.rdf_meaning.specs.Characters.{is_digit};
ghost use Rattle.rdf_meaning.specs.Digits.{number_of_digits};
ghost use Rattle.run_meaning.specs.Spelling.{IsCommandOf};
ghost use Rattle.run_meaning.specs.Words.{is_option, is_plain_number, number_in, once, layout_word, file_word, with_number, with_layout, with_option, split_options, options_of, only_pieces, data_names, data_and_query, one_name, two_numbers, over_query, exec_from, command_from, command_of, none_given};

use rdf_meaning::{Text, text_of};
use rdf_spelling::are_digits;
use run_meaning::{
    Command, DataNames, Layout, MOST_COLUMNS, MOST_DATA_FILES, MOST_DRILL, MOST_HASHES,
    MOST_PIECES, Options,
};
use std::alloc::{AllocError, Global};
use std::marker::Model;

/// The options that stand on the command line.
#[derive(Debug, Drop)]
struct GivenOptions {
    columns: Option<u32>,
    reverse: Option<u32>,
    hashes: Option<u32>,
    layout: Option<Layout>,
    pieces: Option<u32>,
}

impl Model for GivenOptions {
    ghost use Rattle.run_meaning.specs.Words.{Given};

    ghost Value = { Given };

    ghost view = { λ g. record { columns = g.columns; reverse = g.reverse; hashes = g.hashes; layout = g.layout; pieces = g.pieces } };
}

impl GivenOptions {
    fn none() -> GivenOptions
        ensures { result ≡ none_given }
    {
        GivenOptions {
            columns: None,
            reverse: None,
            hashes: None,
            layout: None,
            pieces: None,
        }
    }

    fn is_only_pieces(&self) -> bool
        ensures { result ≡ only_pieces self.now }
    {
        self.columns.is_none()
            && self.reverse.is_none()
            && self.hashes.is_none()
            && self.layout.is_none()
    }

    // What isn't given has its default.
    fn into_options(self) -> Options
        ensures { result ≡ options_of self }
    {
        Options {
            columns: self.columns.unwrap_or(8),
            reverse: self.reverse.unwrap_or(8),
            hashes: self.hashes.unwrap_or(2),
            layout: self.layout.unwrap_or(Layout::Colour),
            pieces: self.pieces.unwrap_or(1),
        }
    }
}

fn is_option(word: &str) -> bool
    ensures { result ≡ is_option word.now }
{
    word.as_bytes().starts_with(b"--")
}

// At most ten digits, without a leading zero but for 0 itself.
fn is_plain_number(word: &[u8]) -> bool
    ensures { result ≡ is_plain_number word.now }
{
    let Some((first, rest)) = word.split_first() else {
        return false;
    };
    if *first == b'0' {
        return rest.is_empty();
    }
    are_digits(word) && rest.len() <= 9
}

// The number that at most ten digits write.
fn number_of_digits(digits: &[u8]) -> u64
    requires few { length digits.now ≤ 10 }
    requires are { list_all is_digit digits.now ≡ true }
    ensures { result ≡ number_of_digits digits.now }
{
    let mut number: u64 = 0;
    for digit in digits {
        number = number * 10 + u64::from(*digit - b'0');
    }
    number
}

// The number that a word writes, where it is one from `low` to `high`.
fn number_in(low: u32, high: u32, word: &str) -> Option<u32>
    ensures { result ≡ number_in low high word.now }
{
    let digits = word.as_bytes();
    if !is_plain_number(digits) {
        return None;
    }
    let number = number_of_digits(digits);
    if u64::from(low) <= number && number <= u64::from(high) {
        Some(number as u32)
    } else {
        None
    }
}

// The new value, where there is one and there was none before.
fn once(old: Option<u32>, new: Option<u32>) -> Option<u32>
    ensures { result ≡ once old new }
{
    match old {
        Some(_) => None,
        None => new,
    }
}

fn layout_word(word: &str) -> Option<Layout>
    ensures { result ≡ layout_word word.now }
{
    if word == "colour" {
        Some(Layout::Colour)
    } else if word == "hash" {
        Some(Layout::Hash)
    } else {
        None
    }
}

fn file_word(alloc: Global, word: &str) -> Result<Option<Layout>, AllocError>
    ensures { IfOk result (λ layout. layout ≡ file_word word.now) }
{
    if is_option(word) {
        return Ok(None);
    }
    Ok(Some(Layout::File(text_of(alloc, word)?)))
}

// The layout is given once, by either option.
fn with_layout(mut given: GivenOptions, layout: Option<Layout>) -> Option<GivenOptions>
    ensures { result ≡ with_layout given layout }
{
    if given.layout.is_some() {
        return None;
    }
    given.layout = Some(layout?);
    Some(given)
}

// An option whose value is a number.
fn with_number(mut given: GivenOptions, name: &str, value: &str) -> Option<GivenOptions>
    ensures { result ≡ with_number given name.now value.now }
{
    if name == "--columns" {
        given.columns = Some(once(given.columns, number_in(1, MOST_COLUMNS, value))?);
    } else if name == "--reverse" {
        given.reverse = Some(once(given.reverse, number_in(1, MOST_COLUMNS, value))?);
    } else if name == "--hashes" {
        given.hashes = Some(once(given.hashes, number_in(1, MOST_HASHES, value))?);
    } else if name == "--pieces" {
        given.pieces = Some(once(given.pieces, number_in(1, MOST_PIECES, value))?);
    } else {
        return None;
    }
    Some(given)
}

// One option with its value.
fn with_option(
    alloc: Global,
    given: GivenOptions,
    name: &str,
    value: &str,
) -> Result<Option<GivenOptions>, AllocError>
    ensures { IfOk result (λ more. more ≡ with_option given name.now value.now) }
{
    if name == "--layout" {
        return Ok(with_layout(given, layout_word(value)));
    }
    if name == "--colouring" {
        return Ok(with_layout(given, file_word(alloc, value)?));
    }
    Ok(with_number(given, name, value))
}

// The options in front, and the words that follow them.
fn split_options(
    alloc: Global,
    words: &[String],
) -> Result<Option<(GivenOptions, &[String])>, AllocError>
    ensures { IfOk result (λ split. option_map (λ x. (x.0, map string_bytes x.1.now)) split ≡ split_options none_given (map string_bytes words.now)) }
{
    let mut given = GivenOptions::none();
    let mut rest = words;
    'options: while let Some((word, behind)) = rest.split_first() {
        if !is_option(word.as_str()) {
            return Ok(Some((given, rest)));
        }
        let Some((value, others)) = behind.split_first() else {
            return Ok(None);
        };
        match with_option(alloc, given, word.as_str(), value.as_str())? {
            Some(more) => given = more,
            None => return Ok(None),
        }
        rest = others;
    }
    Ok(Some((given, rest)))
}

fn has_option(words: &[String]) -> bool
    ensures { result ≡ list_any is_option (map string_bytes words.now) }
{
    let mut rest = words;
    'words: while let Some((word, behind)) = rest.split_first() {
        if is_option(word.as_str()) {
            return true;
        }
        rest = behind;
    }
    false
}

fn texts_of(alloc: Global, words: &[String]) -> Result<Vec<Text>, AllocError>
    ensures { IfOk result (λ texts. texts.items ≡ map string_bytes words.now) }
{
    let mut texts = Vec::with_capacity(alloc, words.len())?;
    for word in words {
        texts.push(text_of(alloc, word.as_str())?)?;
    }
    Ok(texts)
}

// The data files, where they are 1 to 16 names.
fn data_names(alloc: Global, names: &[String]) -> Result<Option<DataNames>, AllocError>
    ensures { IfOk result (λ files. files ≡ data_names (map string_bytes names.now)) }
{
    if has_option(names) || names.is_empty() || names.len() > MOST_DATA_FILES {
        return Ok(None);
    }
    Ok(Some(DataNames::new(texts_of(alloc, names)?)))
}

// The data files, and the query file behind them.
fn data_and_query(alloc: Global, names: &[String]) -> Result<Option<(DataNames, Text)>, AllocError>
    ensures { IfOk result (λ files. files ≡ data_and_query (map string_bytes names.now)) }
{
    let Some((query, files)) = names.split_last() else {
        return Ok(None);
    };
    if is_option(query.as_str()) {
        return Ok(None);
    }
    let Some(data) = data_names(alloc, files)? else {
        return Ok(None);
    };
    Ok(Some((data, text_of(alloc, query.as_str())?)))
}

// The one name that follows the options.
fn one_name(alloc: Global, rest: &[String]) -> Result<Option<Text>, AllocError>
    ensures { IfOk result (λ name. name ≡ one_name (map string_bytes rest.now)) }
{
    let [name] = rest else {
        return Ok(None);
    };
    if is_option(name.as_str()) {
        return Ok(None);
    }
    Ok(Some(text_of(alloc, name.as_str())?))
}

// The two numbers that follow the options of a drill.
fn two_numbers(rest: &[String]) -> Option<(u32, u32)>
    ensures { result ≡ two_numbers (map string_bytes rest.now) }
{
    let [count, seed] = rest else {
        return None;
    };
    Some((
        number_in(1, MOST_DRILL, count.as_str())?,
        number_in(0, u32::MAX, seed.as_str())?,
    ))
}

// The command of this name over data files and a query file.
fn over_query(name: &str, options: Options, files: (DataNames, Text)) -> Option<Command>
    ensures { result ≡ over_query name.now options files.0 files.1 }
{
    let (data, query) = files;
    if name == "query" {
        Some(Command::Query {
            options,
            data,
            query,
        })
    } else if name == "show" {
        Some(Command::Show {
            options,
            data,
            query,
        })
    } else if name == "plan" {
        Some(Command::Plan {
            options,
            data,
            query,
        })
    } else {
        None
    }
}

fn command_from(
    alloc: Global,
    name: &str,
    given: GivenOptions,
    names: &[String],
) -> Result<Option<Command>, AllocError>
    ensures { IfOk result (λ command. command ≡ command_from name.now given (map string_bytes names.now)) }
{
    if name == "stats" {
        let Some(data) = data_names(alloc, names)? else {
            return Ok(None);
        };
        let options = given.into_options();
        return Ok(Some(Command::Stats { options, data }));
    }
    if name == "exec" {
        return exec_from(alloc, given, names);
    }
    if name == "drill" {
        let Some((count, seed)) = two_numbers(names) else {
            return Ok(None);
        };
        let options = given.into_options();
        return Ok(Some(Command::Drill {
            options,
            count,
            seed,
        }));
    }
    let Some(files) = data_and_query(alloc, names)? else {
        return Ok(None);
    };
    Ok(over_query(name, given.into_options(), files))
}

fn exec_from(
    alloc: Global,
    given: GivenOptions,
    names: &[String],
) -> Result<Option<Command>, AllocError>
    ensures { IfOk result (λ command. command ≡ exec_from given (map string_bytes names.now)) }
{
    if !given.is_only_pieces() {
        return Ok(None);
    }
    let Some(file) = one_name(alloc, names)? else {
        return Ok(None);
    };
    let pieces = given.pieces.unwrap_or(1);
    Ok(Some(Command::Exec { pieces, file }))
}

fn read_words(alloc: Global, words: &[String]) -> Result<Option<Command>, AllocError>
    ensures { IfOk result (λ command. command ≡ command_of (map string_bytes words.now)) }
{
    let Some((name, rest)) = words.split_first() else {
        return Ok(None);
    };
    let Some((given, names)) = split_options(alloc, rest)? else {
        return Ok(None);
    };
    command_from(alloc, name.as_str(), given, names)
}

/// The command that the words spell, where they spell one. Words spell one command at most.
pub fn command_of(alloc: Global, words: &[String]) -> Result<Option<Command>, AllocError>
    ensures read { IfOk result (λ command. command ≡ command_of (map string_bytes words.now)) }
    ensures spelled { IfOk result (IsCommandOf (map string_bytes words.now)) }
{
    read_words(alloc, words)
}
