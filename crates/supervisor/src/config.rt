//! The configuration of a space, read from a TOML document. It is read strictly: an extra key, a
//! missing key, or a number outside its limits is an error.
ghost use Rattle.std.specs.Prelude.{◌≡◌, ◌≤◌, ◌<◌, ◌+◌, ◌⊎◌, None, Some, IfErr, IfOk, IfSome, cond};
ghost use Rattle.std.specs.Prelude.{◌==◌, option_and_then, option_map};
ghost use Rattle.ids.specs.declared.limits.TheConstants.{GREATEST_BYTES};
ghost use Rattle.toml.specs.Data.{as_integer, get_member};
ghost use Rattle.toml.specs.View.{table_view, view};
ghost use Rattle.supervisor.specs.Settings.{count_keys, found_settings, settings_of, folder_in};
ghost use Rattle.supervisor.specs.Settings.{number_at, shape_at, table_settings, text_settings};
ghost use Rattle.supervisor.specs.Settings.{chosen, saves_in, saves_named, flag_in, size_in};
ghost use Rattle.supervisor.specs.Settings.{most_registers, most_slots, within};
ghost use Rattle.supervisor.specs.declared.fault.OpenFault.TheVariants as fault;

use crate::fault::OpenFault;
use ids::{
    GREATEST_BYTES, GREATEST_NODES, GREATEST_PLACES, GREATEST_REGISTERS, GREATEST_SLOTS,
    LEAST_NODES, PLAIN_REGISTERS, PLAIN_SLOTS, Saves, Shape,
};
use std::alloc::Global;
use toml::{Table, Value};
use workers::Reclaims;

/// The greatest number of turns that a worker may be given.
pub const GREATEST_TURNS: u32 = 1_000_000;

/// How many keys each configuration has. `places` with `bytes`, `saves`, `folder`, `seals` and
/// `reclaims` are optional.
const KEYS: usize = 4;

/// How a space is to be opened and run.
#[derive(Drop)]
pub struct Config {
    /// How many nodes the space has, and how large each is.
    pub shape: Shape,
    /// How many turns each worker takes at most.
    pub turns: u32,
    /// What a save of a node writes.
    pub saves: Saves,
    /// The folder in which each node has a folder for its disk; `None` for disks in memory.
    pub folder: Option<String>,
    /// Whether saves in a folder get seals, with which an opening compares what was saved.
    pub seals: bool,
    /// Whether the workers of a wide space have their nodes reclaim.
    pub reclaims: bool,
}

// The contents of a table.
#[derive(Clone, Copy)]
struct Found<'a> {
    shape: Shape,
    turns: u32,
    saves: Saves,
    folder: Option<&'a str>,
    seals: bool,
    reclaims: bool,
}

// How many places and bytes an object has at most in a wide space.
#[derive(Clone, Copy)]
struct ObjectSize {
    places: u8,
    bytes: u32,
}

impl Config {
    /// Reads a TOML document that has these keys at its top level and no others: `nodes`, 2 to 64;
    /// `registers`, 1 to 256; `slots`, 1 to 1,048,576; `turns`, 1 to 1,000,000. Others are
    /// optional. `places`, 0 to 255, and `bytes`, 0 to 16,777,216, are there together or not at
    /// all; with them the space is wide, with up to 65,535 registers and 16,777,216 slots. `saves`
    /// is `"images"` or `"events"`; without it, a save writes the image. `folder` is a string.
    /// `seals` is `true` or `false`; without it, saves get seals. `reclaims` is `true` or `false`;
    /// without it, workers have their nodes reclaim.
    ///
    /// `Config` exactly if the text isn't such a document. `Memory` may come instead of either
    /// result.
    pub fn from_text(alloc: Global, text: &str) -> Result<Config, OpenFault>
        ensures read { IfOk result (λ c. text_settings text.now ≡ Some (settings_of c)) }
        ensures refused { IfErr result (λ e.
            ((e ≡ fault.Config) × (text_settings text.now ≡ None)) ⊎ (e ≡ fault.Memory)) }
    {
        match toml::table_from_str(alloc, text) {
            Ok(table) => config_in(alloc, &table),
            Err(error) => {
                if error.is_memory() {
                    Err(OpenFault::Memory)
                } else {
                    Err(OpenFault::Config)
                }
            }
        }
    }

    /// Whether workers have their nodes reclaim. (In a plain space there is nothing to reclaim.)
    pub fn reclaims(&self) -> Reclaims {
        if self.reclaims && self.shape.is_wide() {
            Reclaims::Within(self.shape.slots())
        } else {
            Reclaims::Never
        }
    }
}

// The configuration that a table gives.
fn config_in(alloc: Global, table: &Table) -> Result<Config, OpenFault>
    ensures read { IfOk result (λ c. table_settings (table_view table.now) ≡ Some (settings_of c)) }
    ensures refused { IfErr result (λ e.
        ((e ≡ fault.Config) × (table_settings (table_view table.now) ≡ None))
        ⊎ (e ≡ fault.Memory)) }
{
    let Some(found) = found_in(table) else {
        return Err(OpenFault::Config);
    };
    let folder = match found.folder {
        Some(text) => match String::from_str(alloc, text) {
            Ok(folder) => Some(folder),
            Err(_) => return Err(OpenFault::Memory),
        },
        None => None,
    };
    Ok(Config {
        shape: found.shape,
        turns: found.turns,
        saves: found.saves,
        folder,
        seals: found.seals,
        reclaims: found.reclaims,
    })
}

// The contents of a table, if it is a configuration.
fn found_in(table: &Table) -> Option<Found<'_>>
    ensures { option_map found_settings result ≡ table_settings (table_view table.now) }
{
    let size = size_in(value_at(table, "places"), value_at(table, "bytes"))?;
    let shape = shape_in(table, size)?;
    let turns = number_at(table, "turns", 1, GREATEST_TURNS)?;
    let saves = saves_in(value_at(table, "saves"))?;
    let folder = folder_in(value_at(table, "folder"))?;
    let seals = flag_in(value_at(table, "seals"))?;
    let reclaims = flag_in(value_at(table, "reclaims"))?;
    let optional = 2 * one_if(size.is_some())
        + one_if(saves.is_some())
        + one_if(folder.is_some())
        + one_if(seals.is_some())
        + one_if(reclaims.is_some());
    if count_in(table) != KEYS + optional {
        return None;
    }
    Some(Found {
        shape,
        turns,
        saves: chosen(saves),
        folder,
        seals: seals.unwrap_or(true),
        reclaims: reclaims.unwrap_or(true),
    })
}

fn one_if(is_there: bool) -> usize
    ensures { result ≡ cond is_there 1 0 }
{
    if is_there { 1 } else { 0 }
}

fn count_in(table: &Table) -> usize
    ensures { result ≡ count_keys (table_view table.now) }
{
    table.len()
}

// The sizes that a table gives, if all three are there and within their limits: those of a wide
// space if it gives the size of an object too.
fn shape_in(table: &Table, size: Option<ObjectSize>) -> Option<Shape>
    requires { IfSome size (λ s. s.bytes ≤ GREATEST_BYTES) }
    ensures { result ≡ shape_at size (table_view table.now) }
{
    let least_nodes = u32::from(LEAST_NODES);
    let nodes = number_at(table, "nodes", least_nodes, u32::from(GREATEST_NODES))? as u8;
    let most_registers = u32::from(most_registers(size));
    let registers = number_at(table, "registers", 1, most_registers)? as u16;
    let slots = number_at(table, "slots", 1, most_slots(size))?;
    let shape = match size {
        Some(size) => Shape::wide(nodes, registers, slots, size.places, size.bytes),
        None => Shape::new(nodes, registers, slots),
    };
    match shape {
        Some(shape) => Some(shape),
        None => unreachable!(),
    }
}

// The greatest number of registers in a wide space, whose objects have this size, or in a plain
// one.
fn most_registers(size: Option<ObjectSize>) -> u16
    ensures { result ≡ most_registers size }
{
    match size {
        Some(_) => GREATEST_REGISTERS,
        None => PLAIN_REGISTERS,
    }
}

fn most_slots(size: Option<ObjectSize>) -> u32
    ensures { result ≡ most_slots size }
{
    match size {
        Some(_) => GREATEST_SLOTS,
        None => PLAIN_SLOTS,
    }
}

// The number under a key, if one is there and within these limits.
fn number_at(table: &Table, key: &str, least: u32, greatest: u32) -> Option<u32>
    ensures value { result ≡ number_at key.now least greatest (table_view table.now) }
    ensures within { IfSome result (λ n. (least ≤ n) × (n ≤ greatest)) }
{
    number_within(integer_in(value_at(table, key)), least, greatest)
}

// The number, if there is one within these limits.
fn number_within(number: Option<i64>, least: u32, greatest: u32) -> Option<u32>
    ensures value { result ≡ within least greatest number }
    ensures within { IfSome result (λ n. (least ≤ n) × (n ≤ greatest)) }
{
    let number = u32::try_from(number?).ok()?;
    if least <= number && number <= greatest {
        Some(number)
    } else {
        None
    }
}

fn integer_in(value: Option<&Value>) -> Option<i64>
    ensures { result ≡ option_and_then as_integer (option_map (λ v. view v.now) value.entry) }
{
    match value {
        Some(value) => value.as_integer(),
        None => None,
    }
}

// The size of an object, if there are both values. The outer `None` is for one of them alone, or a
// value that is no such number.
fn size_in(places: Option<&Value>, bytes: Option<&Value>) -> Option<Option<ObjectSize>>
    ensures value { result ≡ size_in (option_map (λ v. view v.now) places.entry)
        (option_map (λ v. view v.now) bytes.entry) }
    ensures within { IfSome result (λ o. IfSome o (λ s. s.bytes ≤ GREATEST_BYTES)) }
{
    match (places, bytes) {
        (Some(places), Some(bytes)) => {
            let most_places = u32::from(GREATEST_PLACES);
            let places = number_within(places.as_integer(), 0, most_places)? as u8;
            let bytes = number_within(bytes.as_integer(), 0, GREATEST_BYTES)?;
            Some(Some(ObjectSize { places, bytes }))
        }
        (None, None) => Some(None),
        _ => None,
    }
}

// The string, if there is a value. The outer `None` is for a value that isn't a string.
fn folder_in(value: Option<&Value>) -> Option<Option<&str>>
    ensures { option_map (λ o. option_map (λ s. s.now) o) result
        ≡ folder_in (option_map (λ v. view v.now) value.entry) }
{
    match value {
        Some(value) => value.as_str().map(Some),
        None => Some(None),
    }
}

// What the string says that a save writes, if there is a value. The outer `None` is for a value
// that says nothing of the kind.
fn saves_in(value: Option<&Value>) -> Option<Option<Saves>>
    ensures { result ≡ saves_in (option_map (λ v. view v.now) value.entry) }
{
    match value {
        Some(value) => saves_named(value.as_str()?).map(Some),
        None => Some(None),
    }
}

// The truth value, if there is a value. The outer `None` is for a value of another kind.
fn flag_in(value: Option<&Value>) -> Option<Option<bool>>
    ensures { result ≡ flag_in (option_map (λ v. view v.now) value.entry) }
{
    match value {
        Some(value) => value.as_bool().map(Some),
        None => Some(None),
    }
}

fn saves_named(name: &str) -> Option<Saves>
    ensures { result ≡ saves_named name.now }
{
    if name == "images" {
        Some(Saves::Images)
    } else if name == "events" {
        Some(Saves::Events)
    } else {
        None
    }
}

// What a save writes if the configuration may say nothing of it.
fn chosen(saves: Option<Saves>) -> Saves
    ensures { result ≡ chosen saves }
{
    match saves {
        Some(saves) => saves,
        None => Saves::Images,
    }
}

fn value_at<'a>(table: &'a Table, key: &str) -> Option<&'a Value>
    ensures { option_map (λ v. view v.now) result ≡ get_member key.now (table_view table.now) }
{
    table.get(key)
}
