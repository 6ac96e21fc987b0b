//! The settings of an office, read from a text in TOML.
ghost use Rattle.std.specs.Prelude.{◌≡◌, ◌⊎◌, [], Ok, Err, IfOk, IfErr, codes, option_map, option_and_then};
ghost use Rattle.toml.specs.Data.{as_str, as_array, as_table, get_member};
ghost use Rattle.toml.specs.Errors.{IsMemory};
ghost use Rattle.toml.specs.View.{table_view, array_view, items_view, view};
ghost use Rattle.office_values.specs.SettingTexts.{is_prefix_text, is_currency_code, is_language_code};
ghost use Rattle.procure_config.specs.WorkedSettings.{city_text, city_settings};
ghost use Rattle.procure_config.specs.Configuration as spec;
ghost use Rattle.procure_config.specs.Configuration.{ReadsAs, name_text, if_passing, is_id_text, is_line_text, text_under, text_of_form, lines_of, lines_at, digest_at, table_at, settings_in};

use hex::FromHex;
use office_values::id::Id;
use office_values::settings::{Buyer, Currency, Extensions, Language, Prefix, Publisher, Settings};
use office_values::text::TextLine;
use std::alloc::{AllocError, Global};
use toml::{Table, Value};

/// A member of the settings, in the order in which they are read.
#[derive(Clone, Copy, Debug, PartialEq, Eq)]
pub enum SettingName {
    Prefix,
    Currency,
    Language,
    Base,
    Publisher,
    Extensions,
    ClerkKey,
    BuyerId,
    BuyerName,
}

impl SettingName {
    /// The member's name, such as `buyer.id`.
    pub fn name(self) -> &'static str
        ensures { result.now ≡ name_text self }
    {
        match self {
            SettingName::Prefix => "prefix",
            SettingName::Currency => "currency",
            SettingName::Language => "language",
            SettingName::Base => "base",
            SettingName::Publisher => "publisher",
            SettingName::Extensions => "extensions",
            SettingName::ClerkKey => "clerk_key",
            SettingName::BuyerId => "buyer.id",
            SettingName::BuyerName => "buyer.name",
        }
    }
}

/// The reason why a text gives no settings.
#[derive(Clone, Copy, Debug, PartialEq, Eq)]
pub enum SettingsFault {
    NoMemory,
    /// The text isn't UTF-8 or isn't TOML.
    NotToml,
    /// The first member that is missing or wrong.
    Member(SettingName),
}

impl From<AllocError> for SettingsFault {
    ghost use Rattle.std.specs.Prelude.{◌≡◌};
    ghost use Rattle.procure_config.specs.declared.settings.SettingsFault.TheVariants.{NoMemory};

    ghost from_gives = { λ _ fault. fault ≡ NoMemory };

    fn from(_: AllocError) -> SettingsFault {
        SettingsFault::NoMemory
    }
}

// The value at a key.
fn find<'a>(table: &'a Table, key: &str) -> Option<&'a Value>
    ensures { option_map (λ v. view v.now) result ≡ get_member key.now (table_view table.now) }
{
    table.get(key)
}

// The text at a key.
fn find_text<'a>(table: &'a Table, key: &str) -> Option<&'a str>
    ensures { option_map (λ s. s.now) result ≡ text_under key.now (table_view table.now) }
{
    match find(table, key) {
        Some(value) => value.as_str(),
        None => None,
    }
}

fn read_prefix(table: &Table) -> Option<Prefix>
    ensures { result ≡ text_of_form is_prefix_text (codes "prefix") (table_view table.now) }
{
    match find_text(table, "prefix") {
        Some(text) => Prefix::read(text.as_bytes()),
        None => None,
    }
}

fn read_currency(table: &Table) -> Option<Currency>
    ensures { result ≡ text_of_form is_currency_code (codes "currency") (table_view table.now) }
{
    match find_text(table, "currency") {
        Some(text) => Currency::read(text.as_bytes()),
        None => None,
    }
}

fn read_language(table: &Table) -> Option<Language>
    ensures { result ≡ text_of_form is_language_code (codes "language") (table_view table.now) }
{
    match find_text(table, "language") {
        Some(text) => Language::read(text.as_bytes()),
        None => None,
    }
}

fn read_id(table: &Table) -> Option<Id>
    ensures { result ≡ text_of_form is_id_text (codes "id") (table_view table.now) }
{
    match find_text(table, "id") {
        Some(text) => Id::read(text.as_bytes()),
        None => None,
    }
}

fn read_line(alloc: Global, table: &Table, key: &str) -> Result<Option<TextLine>, AllocError>
    ensures { IfOk result (λ line. line ≡ text_of_form is_line_text key.now (table_view table.now)) }
{
    match find_text(table, key) {
        Some(text) => TextLine::read(alloc, text.as_bytes()),
        None => Ok(None),
    }
}

fn read_clerk_key(table: &Table) -> Option<[u8; 32]>
    ensures { result ≡ digest_at (codes "clerk_key") (table_view table.now) }
{
    match find_text(table, "clerk_key") {
        Some(text) => <[u8; 32] as FromHex>::from_hex(text).ok(),
        None => None,
    }
}

// The text of a value, if it is a line.
fn line_of(alloc: Global, value: &Value) -> Result<Option<TextLine>, AllocError>
    ensures { IfOk result (λ line. line ≡ if_passing is_line_text (as_str (view value.now))) }
{
    match value.as_str() {
        Some(text) => TextLine::read(alloc, text.as_bytes()),
        None => Ok(None),
    }
}

// The lines that these values are, or None if one of them isn't a line.
fn read_lines(alloc: Global, values: &[Value]) -> Result<Option<Vec<TextLine>>, AllocError>
    ensures { IfOk result (λ lines. option_map (λ l. l.items) lines ≡ lines_of (items_view values.now)) }
{
    let mut lines = Vec::new(alloc);
    'values: for value in values {
        match line_of(alloc, value)? {
            Some(line) => lines.push(line)?,
            None => return Ok(None),
        }
    }
    Ok(Some(lines))
}

// The array at a key.
fn find_array<'a>(table: &'a Table, key: &str) -> Option<&'a Vec<Value>>
    ensures { option_map (λ v. array_view v.now) result ≡ option_and_then as_array (get_member key.now (table_view table.now)) }
{
    match find(table, key) {
        Some(value) => value.as_array(),
        None => None,
    }
}

fn read_extensions(alloc: Global, table: &Table) -> Result<Option<Extensions>, AllocError>
    ensures { IfOk result (λ extensions. extensions ≡ lines_at (codes "extensions") (table_view table.now)) }
{
    let Some(values) = find_array(table, "extensions") else {
        return Ok(None);
    };
    match read_lines(alloc, values.as_slice())? {
        Some(lines) => Ok(Extensions::from_vec(lines)),
        None => Ok(None),
    }
}

// The value, or the fault that names this member.
#[tactic(auto, unfolding(crate::specs::Configuration::setting_or_fault))]
fn setting_or_fault<T: Drop>(name: SettingName, value: Option<T>) -> Result<T, SettingsFault>
    ensures { result ≡ spec.setting_or_fault name value }
{
    match value {
        Some(value) => Ok(value),
        None => Err(SettingsFault::Member(name)),
    }
}

// The table at a key.
fn find_table<'a>(table: &'a Table, key: &str) -> Option<&'a Table>
    ensures { option_map (λ t. table_view t.now) result ≡ option_and_then as_table (get_member key.now (table_view table.now)) }
{
    match find(table, key) {
        Some(value) => value.as_table(),
        None => None,
    }
}

// The buyer that a table gives.
#[tactic(auto, unfolding(crate::specs::Configuration::buyer_in))]
fn buyer_of(alloc: Global, table: &Table) -> Result<Buyer, SettingsFault>
    ensures { ReadsAs result (spec.buyer_in (table_view table.now)) }
{
    let id = setting_or_fault(SettingName::BuyerId, read_id(table))?;
    let name = setting_or_fault(SettingName::BuyerName, read_line(alloc, table, "name")?)?;
    Ok(Buyer { id, name })
}

#[tactic(auto, unfolding(crate::specs::Configuration::buyer_in, crate::specs::Configuration::setting_or_fault))]
fn read_buyer(alloc: Global, table: &Table) -> Result<Buyer, SettingsFault>
    ensures { ReadsAs result (spec.buyer_in (table_at (codes "buyer") (table_view table.now))) }
{
    match find_table(table, "buyer") {
        Some(buyer) => buyer_of(alloc, buyer),
        None => Err(SettingsFault::Member(SettingName::BuyerId)),
    }
}

// The settings that a table gives.
#[tactic(auto, unfolding(crate::specs::Configuration::settings_of))]
fn settings_of(alloc: Global, table: &Table) -> Result<Settings, SettingsFault>
    ensures { ReadsAs result (spec.settings_of (table_view table.now)) }
{
    let prefix = setting_or_fault(SettingName::Prefix, read_prefix(table))?;
    let currency = setting_or_fault(SettingName::Currency, read_currency(table))?;
    let language = setting_or_fault(SettingName::Language, read_language(table))?;
    let base = setting_or_fault(SettingName::Base, read_line(alloc, table, "base")?)?;
    let name = setting_or_fault(
        SettingName::Publisher,
        read_line(alloc, table, "publisher")?,
    )?;
    let extensions = setting_or_fault(SettingName::Extensions, read_extensions(alloc, table)?)?;
    let clerk_key = setting_or_fault(SettingName::ClerkKey, read_clerk_key(table))?;
    let buyer = read_buyer(alloc, table)?;
    let publisher = Publisher {
        prefix,
        currency,
        language,
        base,
        name,
        extensions,
        buyer,
    };
    Ok(Settings {
        publisher,
        clerk_key,
    })
}

// The fault of a text that gives no table.
fn document_fault(error: &toml::de::Error) -> SettingsFault
    ensures { (result ≡ SettingsFault.NoMemory) ⊎ ((result ≡ SettingsFault.NotToml) × (¬ (IsMemory error.now))) }
{
    if error.is_memory() {
        SettingsFault::NoMemory
    } else {
        SettingsFault::NotToml
    }
}

/// The settings that a text in TOML gives. Members of other names are ignored. `NotToml` also if the text isn't UTF-8. Otherwise the fault names the first
/// member, in their order, that is missing or wrong.
pub fn read_settings(alloc: Global, text: &[u8]) -> Result<Settings, SettingsFault>
    ensures settings { IfOk result (λ settings. settings_in text.now ≡ Ok settings) }
    ensures fault { IfErr result (λ fault. (fault ≡ SettingsFault.NoMemory) ⊎ (settings_in text.now ≡ Err fault)) }
{
    match toml::table_from_slice(alloc, text) {
        Ok(table) => settings_of(alloc, &table),
        Err(error) => Err(document_fault(&error)),
    }
}

/// Examples: a text that gives settings, one without its first member, and one that isn't TOML.
pub fn worked_settings()
    ensures city { settings_in city_text ≡ Ok city_settings }
    ensures empty { settings_in [] ≡ Err (SettingsFault.Member SettingName.Prefix) }
    ensures other { settings_in (codes "prefix:") ≡ Err SettingsFault.NotToml }
{}
