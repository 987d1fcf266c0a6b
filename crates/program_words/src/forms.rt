//! The forms of the command line.
ghost use Rattle.std.specs.Prelude.{◌≡◌, true, IfSome, IsTrue};
ghost use Rattle.program_words.specs.Forms.{form_in, form_on, alone_on, is_alone, is_bare, from_of, is_there, form_of_word, disk_form_of_word, form_of_words, form_of_three, bulk_form, daemon_form, is_counted, live_form, live_seed};

use script_text::{Mode, number_of};

/// What the words ask for.
#[derive(Clone, Copy, Debug, PartialEq, Eq)]
pub enum Form {
    /// `solo`
    Solo,
    /// `replay`
    Replay,
    /// `replay json`
    ReplayJson,
    /// `bulk` and a number, 1 to 1,000.
    Bulk(u32),
    /// `live`, the turns of each node and a seed: nodes as threads.
    Live {
        /// How many turns each node has at most, 1 to 100,000.
        turns: u32,
        /// What losses, repeats and delays are drawn from.
        seed: u32,
    },
    /// `pull`
    Pull,
    /// `daemon` and how many instances, 1 to 100.
    Daemon(u8),
    /// `log`
    Log,
    /// `resume`
    Resume,
    /// `apply`
    Apply,
}

/// Where the script of a form is from.
#[derive(Clone, Copy, Debug, PartialEq, Eq)]
pub enum ScriptFrom {
    /// The input, read as a script of this command.
    Input(Mode),
    /// The number that it is the script of, 1 to 1,000.
    Number(u32),
}

impl Form {
    /// Where its script is from.
    pub fn script_from(self) -> ScriptFrom
        ensures { result ≡ from_of self }
    {
        match self {
            Form::Solo => ScriptFrom::Input(Mode::Solo),
            Form::Replay | Form::ReplayJson => ScriptFrom::Input(Mode::Replay),
            Form::Bulk(number) => ScriptFrom::Number(number),
            Form::Live { .. } => ScriptFrom::Input(Mode::Live),
            Form::Pull => ScriptFrom::Input(Mode::Pull),
            Form::Daemon(_) => ScriptFrom::Input(Mode::Daemon),
            Form::Log | Form::Resume | Form::Apply => ScriptFrom::Input(Mode::Log),
        }
    }
}

/// The form of the words after the program's name, if they are one, where no disk is at hand.
pub fn form_of(words: &[String]) -> Option<Form>
    ensures form { result ≡ form_in words.now }
    ensures number { IfSome result (λ f. IsTrue (is_there (from_of f))) }
    ensures count { IfSome result (λ f. IsTrue (is_counted f)) }
    ensures diskless { IfSome result (λ f. is_alone f ≡ is_bare f) }
{
    match words {
        [word] => form_of_word(word.as_str()),
        [first, second] => form_of_words(first.as_str(), second.as_str()),
        [first, second, third] => form_of_three(first.as_str(), second.as_str(), third.as_str()),
        _ => None,
    }
}

/// The form of the words after the program's name, if they are one, where a disk is at hand.
pub fn disk_form_of(words: &[String]) -> Option<Form>
    ensures form { result ≡ form_on words.now }
    ensures number { IfSome result (λ f. IsTrue (is_there (from_of f))) }
    ensures count { IfSome result (λ f. IsTrue (is_counted f)) }
{
    match words {
        [word] => disk_form_of_word(word.as_str()),
        [first, second] => form_of_words(first.as_str(), second.as_str()),
        [first, second, third] => form_of_three(first.as_str(), second.as_str(), third.as_str()),
        _ => None,
    }
}

/// The form of one thread of the words after the program's name, if they are one, where a disk is at hand.
pub fn alone_form_of(words: &[String]) -> Option<Form>
    ensures form { result ≡ alone_on words.now }
    ensures number { IfSome result (λ f. IsTrue (is_there (from_of f))) }
    ensures count { IfSome result (λ f. IsTrue (is_counted f)) }
    ensures alone { IfSome result (λ f. is_alone f ≡ true) }
{
    match words {
        [word] => disk_form_of_word(word.as_str()),
        [first, second] => form_of_words(first.as_str(), second.as_str()),
        _ => None,
    }
}

fn disk_form_of_word(word: &str) -> Option<Form>
    ensures form { result ≡ disk_form_of_word word.now }
    ensures number { IfSome result (λ f. IsTrue (is_there (from_of f))) }
    ensures count { IfSome result (λ f. IsTrue (is_counted f)) }
    ensures alone { IfSome result (λ f. is_alone f ≡ true) }
{
    if word == "log" {
        Some(Form::Log)
    } else if word == "resume" {
        Some(Form::Resume)
    } else if word == "apply" {
        Some(Form::Apply)
    } else {
        form_of_word(word)
    }
}

fn form_of_word(word: &str) -> Option<Form>
    ensures form { result ≡ form_of_word word.now }
    ensures number { IfSome result (λ f. IsTrue (is_there (from_of f))) }
    ensures count { IfSome result (λ f. IsTrue (is_counted f)) }
    ensures alone { IfSome result (λ f. is_alone f ≡ true) }
    ensures diskless { IfSome result (λ f. is_bare f ≡ true) }
{
    if word == "solo" {
        Some(Form::Solo)
    } else if word == "replay" {
        Some(Form::Replay)
    } else if word == "pull" {
        Some(Form::Pull)
    } else {
        None
    }
}

fn form_of_words(first: &str, second: &str) -> Option<Form>
    ensures form { result ≡ form_of_words first.now second.now }
    ensures number { IfSome result (λ f. IsTrue (is_there (from_of f))) }
    ensures count { IfSome result (λ f. IsTrue (is_counted f)) }
    ensures alone { IfSome result (λ f. is_alone f ≡ true) }
    ensures diskless { IfSome result (λ f. is_bare f ≡ true) }
{
    if first == "replay" && second == "json" {
        Some(Form::ReplayJson)
    } else if first == "bulk" {
        bulk_form(second.as_bytes())
    } else if first == "daemon" {
        daemon_form(second.as_bytes())
    } else {
        None
    }
}

/// The form of `bulk` and this word.
#[tactic(auto, unfolding(script_text::specs::Orders::number))]
fn bulk_form(word: &[u8]) -> Option<Form>
    ensures form { result ≡ bulk_form word.now }
    ensures number { IfSome result (λ f. IsTrue (is_there (from_of f))) }
    ensures count { IfSome result (λ f. IsTrue (is_counted f)) }
    ensures alone { IfSome result (λ f. is_alone f ≡ true) }
    ensures diskless { IfSome result (λ f. is_bare f ≡ true) }
{
    match number_of(word, 1, 1_000) {
        Ok(number) => Some(Form::Bulk(number)),
        Err(_) => None,
    }
}

/// The form of `daemon` and this word.
#[tactic(auto, unfolding(script_text::specs::Orders::number))]
fn daemon_form(word: &[u8]) -> Option<Form>
    ensures form { result ≡ daemon_form word.now }
    ensures number { IfSome result (λ f. IsTrue (is_there (from_of f))) }
    ensures count { IfSome result (λ f. IsTrue (is_counted f)) }
    ensures alone { IfSome result (λ f. is_alone f ≡ true) }
    ensures diskless { IfSome result (λ f. is_bare f ≡ true) }
{
    match number_of(word, 1, 100) {
        Ok(count) => Some(Form::Daemon(count as u8)),
        Err(_) => None,
    }
}

fn form_of_three(first: &str, second: &str, third: &str) -> Option<Form>
    ensures form { result ≡ form_of_three first.now second.now third.now }
    ensures number { IfSome result (λ f. IsTrue (is_there (from_of f))) }
    ensures count { IfSome result (λ f. IsTrue (is_counted f)) }
    ensures diskless { IfSome result (λ f. is_alone f ≡ is_bare f) }
{
    if first == "live" {
        live_form(second.as_bytes(), third.as_bytes())
    } else {
        None
    }
}

/// The form of `live`, this number of turns, and this seed.
#[tactic(auto, unfolding(script_text::specs::Orders::number))]
fn live_form(turns: &[u8], seed: &[u8]) -> Option<Form>
    ensures form { result ≡ live_form turns.now seed.now }
    ensures number { IfSome result (λ f. IsTrue (is_there (from_of f))) }
    ensures count { IfSome result (λ f. IsTrue (is_counted f)) }
    ensures diskless { IfSome result (λ f. is_alone f ≡ is_bare f) }
{
    match number_of(turns, 1, 100_000) {
        Ok(turns) => live_seed(turns, seed),
        Err(_) => None,
    }
}

/// The form of `live`, so many turns, and this seed.
#[tactic(auto, unfolding(script_text::specs::Orders::number))]
fn live_seed(turns: u32, seed: &[u8]) -> Option<Form>
    ensures form { result ≡ live_seed turns seed.now }
    ensures number { IfSome result (λ f. IsTrue (is_there (from_of f))) }
    ensures count { IfSome result (λ f. IsTrue (is_counted f)) }
    ensures diskless { IfSome result (λ f. is_alone f ≡ is_bare f) }
{
    match number_of(seed, 0, u32::MAX) {
        Ok(seed) => Some(Form::Live { turns, seed }),
        Err(_) => None,
    }
}
