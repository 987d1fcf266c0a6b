//! The words of settings.
ghost use Rattle.std.specs.Prelude.{◌≡◌, ◌<◌, ◌+◌, IfOk, IfSome, IsTrue, length, drop, MatchOption, fold};
ghost use Rattle.std.specs.List.{position, list_any};
ghost use Rattle.yard_model.specs.Script.{is_config};
ghost use Rattle.yard_model.specs.Behaviour.{is_in};
ghost use Rattle.script_text.specs.Faults.{number_of};
ghost use Rattle.script_text.specs.Words.{words};
ghost use Rattle.script_text.specs.Orders.{number};
ghost use Rattle.script_text.specs.Settings.{kind_named, switch_named, setting_named, is_equals, key_text, setting_of, is_reason, none_refused, is_twice, defaults, with_value, with_setting, settings, is_setting, has_key};

use crate::cut::next_word;
use crate::fault::Why;
use crate::words::{is, number_of};
use yard_model::{Config, Kind};

/// A setting, with a value in its range.
#[derive(Clone, Copy)]
pub enum Setting {
    /// `nodes=N`
    Nodes(u8),
    /// `shards=N`
    Shards(u8),
    /// `producers=N`
    Producers(u8),
    /// `buffer=N`
    Buffer(u16),
    /// `window=N`
    Window(u8),
    /// `snapshot=N`
    Snapshot(u16),
    /// `keep=N`
    Keep(u8),
    /// `remember=on` or `remember=off`
    Remember(bool),
    /// `kind=KIND`
    OfKind(Kind),
}

/// The settings that these words give: `KEY=VALUE`, in any order, each key at most once, else as by default. The first
/// reason where a word is none.
#[tactic(auto, unfolding(crate::specs::Settings::settings))]
pub fn read_settings(line: &[u8]) -> Result<Config, Why>
    ensures value { result ≡ settings (words line.now) }
    ensures valid { IfOk result (λ c. IsTrue (is_config c)) }
{
    none_refused(Why::UnknownWord, line)?;
    if is_twice(line) {
        return Err(Why::ExtraWord);
    }
    none_refused(Why::BadNumber, line)?;
    none_refused(Why::OutOfRange, line)?;
    Ok(with_settings(line))
}

/// The settings, where each word is one.
fn with_settings(line: &[u8]) -> Config
    ensures value { result ≡ fold with_setting defaults (words line.now) }
    ensures valid { IsTrue (is_config result) }
{
    let mut config = Config {
        nodes: 3,
        shards: 10,
        producers: 2,
        buffer: 100,
        window: 50,
        snapshot: 100,
        keep: 2,
        remember: false,
        kind: Kind::Counter,
    };
    let mut rest = line;
    while let Some((word, more)) = next_word(rest) {
        config = with_setting(config, word);
        rest = more;
    }
    config
}

/// The same settings but for this one.
fn with_setting(config: Config, word: &[u8]) -> Config
    requires { IsTrue (is_config config) }
    ensures value { result ≡ with_setting config word.now }
    ensures valid { IsTrue (is_config result) }
{
    match read_setting(word) {
        Ok(setting) => with_value(config, setting),
        Err(_) => config,
    }
}

fn with_value(config: Config, setting: Setting) -> Config
    requires config { IsTrue (is_config config) }
    requires setting { IsTrue (is_setting setting) }
    ensures value { result ≡ with_value config setting }
    ensures valid { IsTrue (is_config result) }
{
    match setting {
        Setting::Nodes(nodes) => Config { nodes, ..config },
        Setting::Shards(shards) => Config { shards, ..config },
        Setting::Producers(producers) => Config {
            producers,
            ..config
        },
        Setting::Buffer(buffer) => Config { buffer, ..config },
        Setting::Window(window) => Config { window, ..config },
        Setting::Snapshot(snapshot) => Config { snapshot, ..config },
        Setting::Keep(keep) => Config { keep, ..config },
        Setting::Remember(remember) => Config { remember, ..config },
        Setting::OfKind(kind) => Config { kind, ..config },
    }
}

/// That no setting is refused for this reason.
#[tactic(auto, unfolding(crate::specs::Settings::none_refused))]
fn none_refused(why: Why, line: &[u8]) -> Result<(), Why>
    ensures { result ≡ none_refused why (words line.now) }
{
    if is_any_refused(why, line) {
        Err(why)
    } else {
        Ok(())
    }
}

/// Whether some setting is refused for this reason.
fn is_any_refused(why: Why, line: &[u8]) -> bool
    ensures { result ≡ list_any (λ w. is_reason why (setting_of w)) (words line.now) }
{
    let mut rest = line;
    while let Some((word, more)) = next_word(rest) {
        if is_refused(why, word) {
            return true;
        }
        rest = more;
    }
    false
}

/// Whether this setting is refused for this reason.
fn is_refused(why: Why, word: &[u8]) -> bool
    ensures { result ≡ is_reason why (setting_of word.now) }
{
    match read_setting(word) {
        Ok(_) => false,
        Err(other) => why.number() == other.number(),
    }
}

/// Whether a key is given twice.
fn is_twice(line: &[u8]) -> bool
    ensures { result ≡ is_twice (words line.now) }
{
    let mut rest = line;
    while let Some((word, more)) = next_word(rest) {
        if has_key(more, key_text(word)) {
            return true;
        }
        rest = more;
    }
    false
}

/// Whether one of these words has this key.
fn has_key(line: &[u8], key: &[u8]) -> bool
    ensures { result ≡ list_any (has_key key.now) (words line.now) }
{
    let mut rest = line;
    while let Some((word, more)) = next_word(rest) {
        if key_text(word) == key {
            return true;
        }
        rest = more;
    }
    false
}

/// The word up to its first `=`.
#[tactic(auto, unfolding(crate::specs::Settings::key_text))]
fn key_text(word: &[u8]) -> &[u8]
    ensures { result.now ≡ key_text word.now }
{
    match equals(word) {
        Some(end) => &word[..end],
        None => word,
    }
}

/// Where the first `=` stands.
fn equals(word: &[u8]) -> Option<usize>
    ensures place { result ≡ position is_equals word.now }
    ensures within { IfSome result (λ i. i < length word.now) }
{
    word.iter().position(|b| *b == b'=')
}

/// The setting that a word says.
#[tactic(auto, unfolding(crate::specs::Settings::setting_of))]
fn read_setting(word: &[u8]) -> Result<Setting, Why>
    ensures value { result ≡ setting_of word.now }
    ensures valid { IfOk result (λ s. IsTrue (is_setting s)) }
{
    match equals(word) {
        Some(end) => setting_named(&word[..end], &word[end + 1..]),
        None => Err(Why::UnknownWord),
    }
}

/// The setting of this key and value.
#[tactic(auto, unfolding(crate::specs::Settings::setting_named))]
fn setting_named(key: &[u8], value: &[u8]) -> Result<Setting, Why>
    ensures value { result ≡ setting_named key.now value.now }
    ensures valid { IfOk result (λ s. IsTrue (is_setting s)) }
{
    if is(key, "nodes") {
        Ok(Setting::Nodes(number_of(value, 1, 16)? as u8))
    } else if is(key, "shards") {
        Ok(Setting::Shards(number_of(value, 1, 128)? as u8))
    } else if is(key, "producers") {
        Ok(Setting::Producers(number_of(value, 1, 32)? as u8))
    } else if is(key, "buffer") {
        Ok(Setting::Buffer(number_of(value, 1, 1000)? as u16))
    } else if is(key, "window") {
        Ok(Setting::Window(number_of(value, 1, 64)? as u8))
    } else if is(key, "snapshot") {
        Ok(Setting::Snapshot(number_of(value, 1, 10_000)? as u16))
    } else if is(key, "keep") {
        Ok(Setting::Keep(number_of(value, 1, 10)? as u8))
    } else if is(key, "remember") {
        Ok(Setting::Remember(switch_named(value)?))
    } else if is(key, "kind") {
        Ok(Setting::OfKind(kind_named(value)?))
    } else {
        Err(Why::UnknownWord)
    }
}

#[tactic(auto, unfolding(crate::specs::Settings::switch_named))]
fn switch_named(value: &[u8]) -> Result<bool, Why>
    ensures { result ≡ switch_named value.now }
{
    if is(value, "on") {
        Ok(true)
    } else if is(value, "off") {
        Ok(false)
    } else {
        Err(Why::UnknownWord)
    }
}

#[tactic(auto, unfolding(crate::specs::Settings::kind_named))]
fn kind_named(value: &[u8]) -> Result<Kind, Why>
    ensures { result ≡ kind_named value.now }
{
    if is(value, "counter") {
        Ok(Kind::Counter)
    } else if is(value, "account") {
        Ok(Kind::Account)
    } else if is(value, "cart") {
        Ok(Kind::Cart)
    } else {
        Err(Why::UnknownWord)
    }
}
