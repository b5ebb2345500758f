//! What the words after the program's name ask for: a command, and the pace that its options set.
//! Words that are none are refused as a whole, and so is a number out of its bounds.
ghost use Rattle.std.specs.Prelude.{◌≡◌, ◌<◌, ◌≤◌, ◌^◌, ◌∷◌, IfOk, IfSome, Some, true};
ghost use Rattle.std.specs.Char.{is_ascii_digit};
ghost use Rattle.std.specs.List.{list_all};
ghost use Rattle.tl_program.specs.declared.commands.Command.TheVariants as command;
ghost use Rattle.tl_program.specs.Commands.{spelled_number, within, set_by, workers_by, every_by, pace_of, either, options_of, nothing, with_pace, load_of, sample_of, ship_of, version_by, alone, load_settings, sample_settings, ship_settings, watch_settings, settings_of, texts_of};

use std::alloc::Global;
use tl_jobs::Pace;
use tl_types::{Line, NoMemory, Text, is_name};

/// What the words ask for.
#[derive(Drop)]
pub enum Command {
    /// `init`: an empty journal is made.
    Init,
    /// `run`: the script that the source gives is run.
    Run,
    /// `group`: the script that the source gives is run, and its commits are appended at once.
    Group,
    /// `ship V W`: the commits with versions from one to another are written as packets.
    Ship {
        /// The first version, 0 to 16,777,215.
        from: u32,
        /// The last one, 0 to 16,777,215.
        to: u32,
    },
    /// `follow`: the commits that the source's packets make are appended.
    Follow,
    /// `load TABLE`: all that the source gives is put as one block.
    Load {
        /// The table's name: a name of the language, 1 to 64 bytes.
        table: Text,
    },
    /// `sample N START`: the jobs of the sample are run.
    Sample {
        /// How many lines the sample has, 1 to 1,000,000.
        lines: u32,
        /// The number that its generator begins with.
        start: u64,
    },
    /// `watch TEXT`: the script that the source gives is run, its commits are appended at once, and
    /// behind each reply `ok` the value of the plan is written that the text names.
    Watch {
        /// The text, of any length.
        text: Line,
    },
    /// `transact`: as `group`, but nothing is kept where a statement is refused.
    Transact,
}

/// What the words set: a command, and the pace of its run.
#[derive(Drop)]
pub struct Settings {
    /// The command, `None` where the words are none.
    pub command: Option<Command>,
    /// With how many workers it runs, and after how many events a table gets a mark.
    pub pace: Pace,
}

// The most lines of a sample.
const MOST_LINES: u64 = 1_000_000;

// The greatest version that a shipment may be asked to begin or end with.
const MOST_VERSION: u64 = 16_777_215;

// The most workers.
const MOST_WORKERS: u64 = 64;

// The most events that a mark may wait for.
const MOST_EVERY: u64 = 16_777_216;

// The workers where no option says otherwise.
const WORKERS: u64 = 4;

// The events that a mark waits for where no option says otherwise.
const EVERY: u64 = 4096;

fn all_digits(bytes: &[u8]) -> bool
    ensures { result ≡ list_all is_ascii_digit bytes.now }
{
    bytes.iter().all(|byte| byte.is_ascii_digit())
}

// The number that digits spell, where it is below 2^64.
#[tactic(auto, using(crate::proofs::CommandLemmas::number_parsed))]
fn parse_digits(digits: &str) -> Option<u64>
    requires { list_all is_ascii_digit digits.now ≡ true }
    ensures { result ≡ spelled_number digits.now }
{
    digits.parse::<u64>().ok()
}

// The number below 2^64 that a word spells in digits alone.
fn spelled_number(word: &str) -> Option<u64>
    ensures { result ≡ spelled_number word.now }
{
    if !all_digits(word.as_bytes()) {
        return None;
    }
    parse_digits(word)
}

// The number, where it lies between two bounds.
fn within(least: u64, most: u64, number: Option<u64>) -> Option<u64>
    ensures { result ≡ within least most number }
{
    match number {
        Some(number) if least <= number && number <= most => Some(number),
        _ => None,
    }
}

// The number that the option of a name sets, where the word is the name and the other spells a
// number between two bounds.
fn set_by(name: &str, least: u64, most: u64, word: &str, number: &str) -> Option<u64>
    ensures { result ≡ set_by name.now least most word.now number.now }
{
    if word != name {
        return None;
    }
    within(least, most, spelled_number(number))
}

#[tactic(auto, using(crate::proofs::CommandLemmas::few_workers))]
fn workers_by(word: &str, number: &str) -> Option<u64>
    ensures number { result ≡ workers_by word.now number.now }
    ensures few { IfSome result (λ n. (0 < n) × (n ≤ 64)) }
{
    set_by("--workers", 1, MOST_WORKERS, word, number)
}

#[tactic(auto, using(crate::proofs::CommandLemmas::few_events))]
fn every_by(word: &str, number: &str) -> Option<u64>
    ensures number { result ≡ every_by word.now number.now }
    ensures few { IfSome result (λ n. n < 2 ^ 32) }
{
    set_by("--every", 0, MOST_EVERY, word, number)
}

// The pace of two numbers, where both are given.
fn pace_of(workers: Option<u64>, every: Option<u64>) -> Option<Pace>
    requires workers { IfSome workers (λ n. (0 < n) × (n ≤ 64)) }
    requires every { IfSome every (λ n. n < 2 ^ 32) }
    ensures { result ≡ pace_of workers every }
{
    match (workers, every) {
        (Some(workers), Some(every)) => Some(Pace::new(workers as u32, every as u32)),
        _ => None,
    }
}

// The first, where it is given, else the second.
fn either(first: Option<Pace>, second: Option<Pace>) -> Option<Pace>
    ensures { result ≡ either first second }
{
    match first {
        Some(first) => Some(first),
        None => second,
    }
}

// What one option sets.
fn one_option(word: &str, number: &str) -> Option<Pace>
    ensures { result ≡ either (pace_of (workers_by word.now number.now) (Some 4096))
        (pace_of (Some 4) (every_by word.now number.now)) }
{
    either(
        pace_of(workers_by(word, number), Some(EVERY)),
        pace_of(Some(WORKERS), every_by(word, number)),
    )
}

// What two options set, in either order.
fn two_options(word: &str, number: &str, other: &str, second: &str) -> Option<Pace>
    ensures { result ≡ either
        (pace_of (workers_by word.now number.now) (every_by other.now second.now))
        (pace_of (workers_by other.now second.now) (every_by word.now number.now)) }
{
    either(
        pace_of(workers_by(word, number), every_by(other, second)),
        pace_of(workers_by(other, second), every_by(word, number)),
    )
}

// The pace that options set.
fn options_of(words: &[String]) -> Option<Pace>
    ensures { result ≡ options_of (texts_of words.now) }
{
    match words {
        [] => pace_of(Some(WORKERS), Some(EVERY)),
        [_] => None,
        [word, number] => one_option(word.as_str(), number.as_str()),
        [_, _, _] => None,
        [word, number, other, second] => {
            two_options(
                word.as_str(),
                number.as_str(),
                other.as_str(),
                second.as_str(),
            )
        }
        _ => None,
    }
}

fn nothing() -> Settings
    ensures { result ≡ nothing }
{
    Settings {
        command: None,
        pace: Pace::new(4, 4096),
    }
}

// A command with a pace, where both are given.
fn with_pace(command: Option<Command>, pace: Option<Pace>) -> Settings
    ensures { result ≡ with_pace command pace }
{
    match pace {
        Some(pace) => Settings { command, pace },
        None => nothing(),
    }
}

fn sample_of(lines: Option<u64>, start: Option<u64>) -> Option<Command>
    requires { IfSome lines (λ n. n < 2 ^ 32) }
    ensures { result ≡ sample_of lines start }
{
    match (lines, start) {
        (Some(lines), Some(start)) => Some(Command::Sample {
            lines: lines as u32,
            start,
        }),
        _ => None,
    }
}

#[tactic(auto, using(crate::proofs::CommandLemmas::few_lines))]
fn sample_with(lines: &str, start: &str) -> Option<Command>
    ensures { result ≡ sample_of (within 1 1000000 (spelled_number lines.now))
        (spelled_number start.now) }
{
    sample_of(
        within(1, MOST_LINES, spelled_number(lines)),
        spelled_number(start),
    )
}

// The command to load a table, where the word is a name.
fn load_of(alloc: Global, table: &str) -> Result<Option<Command>, NoMemory>
    ensures { IfOk result (λ command. command ≡ load_of table.now) }
{
    if !is_name(table) {
        return Ok(None);
    }
    let table = Text::new(alloc, table)?;
    Ok(Some(Command::Load { table }))
}

fn ship_of(from: Option<u64>, to: Option<u64>) -> Option<Command>
    requires from { IfSome from (λ n. n < 2 ^ 32) }
    requires to { IfSome to (λ n. n < 2 ^ 32) }
    ensures { result ≡ ship_of from to }
{
    match (from, to) {
        (Some(from), Some(to)) => Some(Command::Ship {
            from: from as u32,
            to: to as u32,
        }),
        _ => None,
    }
}

// The version that a word spells.
#[tactic(auto, using(crate::proofs::CommandLemmas::few_versions))]
fn version_by(word: &str) -> Option<u64>
    ensures version { result ≡ version_by word.now }
    ensures few { IfSome result (λ n. n < 2 ^ 32) }
{
    within(0, MOST_VERSION, spelled_number(word))
}

// What a command sets behind which no word stands.
fn alone(command: Command, words: &[String]) -> Settings
    ensures { result ≡ alone command (texts_of words.now) }
{
    match words {
        [] => with_pace(Some(command), options_of(words)),
        _ => nothing(),
    }
}

// What the words behind `ship` set.
fn ship_settings(words: &[String]) -> Settings
    ensures { result ≡ ship_settings (texts_of words.now) }
{
    match words {
        [from, to, options @ ..] => match options {
            [] => with_pace(
                ship_of(version_by(from.as_str()), version_by(to.as_str())),
                options_of(options),
            ),
            _ => nothing(),
        },
        _ => nothing(),
    }
}

// The command to watch what a text names.
fn watch_of(alloc: Global, text: &str) -> Result<Option<Command>, NoMemory>
    ensures { IfOk result (λ c. c ≡ Some (command.Watch text.now)) }
{
    let text = Line::new(alloc, text)?;
    Ok(Some(Command::Watch { text }))
}

// What the words behind `watch` set.
fn watch_settings(alloc: Global, words: &[String]) -> Result<Settings, NoMemory>
    ensures { IfOk result (λ settings. settings ≡ watch_settings (texts_of words.now)) }
{
    let [text, behind @ ..] = words else {
        return Ok(nothing());
    };
    match behind {
        [] => Ok(with_pace(watch_of(alloc, text.as_str())?, options_of(behind))),
        _ => Ok(nothing()),
    }
}

// What the words behind `load` set.
fn load_settings(alloc: Global, words: &[String]) -> Result<Settings, NoMemory>
    ensures { IfOk result (λ settings. settings ≡ load_settings (texts_of words.now)) }
{
    let [table, options @ ..] = words else {
        return Ok(nothing());
    };
    Ok(with_pace(load_of(alloc, table.as_str())?, options_of(options)))
}

// What the words behind `sample` set.
fn sample_settings(words: &[String]) -> Settings
    ensures { result ≡ sample_settings (texts_of words.now) }
{
    match words {
        [lines, start, options @ ..] => with_pace(
            sample_with(lines.as_str(), start.as_str()),
            options_of(options),
        ),
        _ => nothing(),
    }
}

// What a word and the words behind it set.
fn settings_by(alloc: Global, word: &str, words: &[String]) -> Result<Settings, NoMemory>
    ensures { IfOk result (λ settings. settings ≡ settings_of (word.now ∷ texts_of words.now)) }
{
    match word {
        "init" => Ok(alone(Command::Init, words)),
        "run" => Ok(with_pace(Some(Command::Run), options_of(words))),
        "load" => load_settings(alloc, words),
        "sample" => Ok(sample_settings(words)),
        "group" => Ok(alone(Command::Group, words)),
        "ship" => Ok(ship_settings(words)),
        "follow" => Ok(alone(Command::Follow, words)),
        "watch" => watch_settings(alloc, words),
        "transact" => Ok(alone(Command::Transact, words)),
        _ => Ok(nothing()),
    }
}

/// What the words set. A command is `init`; `run`; `load TABLE` with a name of the language;
/// `sample N START` with N from 1 to 1,000,000 and START from 0 to 2^64 - 1; `group`; `ship V W`
/// with V and W from 0 to 16,777,215; `follow`; `watch TEXT` with any one word; or `transact`.
/// Behind `run`, `load TABLE` and `sample N START` may stand `--workers W` with W from 1 to 64, and
/// `--every K` with K from 0 to 16,777,216, each at most once and in either order; else W is 4 and
/// K is 4096. The numbers are spelled by ASCII digits alone. Any other words are no command. The
/// error is `NoMemory`.
pub(crate) fn settings_of(alloc: Global, words: &[String]) -> Result<Settings, NoMemory>
    ensures { IfOk result (λ settings. settings ≡ settings_of (texts_of words.now)) }
{
    match words {
        [word, behind @ ..] => settings_by(alloc, word.as_str(), behind),
        [] => Ok(nothing()),
    }
}
