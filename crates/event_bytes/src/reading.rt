//! Reads events from bytes. Each call reads an event from the front of what is left. If the bytes
//! there don't spell one, the reader fails, or the call returns no event.
ghost use Rattle.std.specs.Prelude.{◌≡◌, ◌≢◌, IfErr, IfOk, Some};
ghost use Rattle.std.specs.Option.{option_map};
ghost use Rattle.ids.specs.declared.refusal.Refusal.TheVariants.{Memory};
ghost use Rattle.codec.specs.Formats.{behind};
ghost use Rattle.codec.specs.Readers.{Reads, Takes};
ghost use Rattle.codec.specs.Reading.{IsSound};
ghost use Rattle.frames.specs.Formats.{head};
ghost use Rattle.event_bytes.specs.Entries.{alloc_at, copy_at, load_at, store_at, clear_at};
ghost use Rattle.event_bytes.specs.Entries.{set_word_at, set_bytes_at, patch_at, give_at, put_at};
ghost use Rattle.event_bytes.specs.Entries.{get_at, post_at, fetch_at, resolve_at, received_at};
ghost use Rattle.event_bytes.specs.Entries.{acknowledged_at, entries, entry};
ghost use Rattle.event_bytes.specs.Events.{acknowledged_of, entry_of, received_of};

use crate::tags::{
    ACCEPT, ACK, ALLOC, BEGIN, CLEAR, COPY, DATA, DROP, FETCH, GET, GIVE, LOAD, NEXT, PASS, PATCH,
    POST, PUT, RECLAIM, RECLAIM_YOUNG, RESOLVE, SCAN, SET_BYTES, SET_WORD, STORE, SWEEP, WORD,
};
use codec::Reader;
use frames::Version;
use frames::reading::{read_reference, read_wide_body};
use ids::Refusal;
use model::{Event, Scope};
use msg::{Ack, Data};
use std::alloc::Global;

/// No spelling of an event is a prefix of another one, and what is read has that spelling. The
/// function does nothing; its contract states the law.
#[tactic(auto, using(crate::proofs::Sound::entry_sound))]
pub fn spellings()
    ensures { IsSound entry }
{}

#[tactic(auto, unfolding(crate::specs::Entries::alloc_at), using(crate::proofs::Joins::both_read, crate::proofs::Joins::made_of))]
fn read_alloc<'a>(reader: &mut Reader<'a>) -> Event<'a>
    ensures { Takes alloc_at reader.old reader.new (Some (entry_of result)) }
{
    let register = reader.u16();
    let places = reader.u8();
    Event::Alloc { register, places }
}

#[tactic(auto, unfolding(crate::specs::Entries::copy_at), using(crate::proofs::Joins::both_read, crate::proofs::Joins::made_of))]
fn read_copy<'a>(reader: &mut Reader<'a>) -> Event<'a>
    ensures { Takes copy_at reader.old reader.new (Some (entry_of result)) }
{
    let register = reader.u16();
    let source = reader.u16();
    Event::Copy { register, source }
}

#[tactic(auto, unfolding(crate::specs::Entries::load_at), using(crate::proofs::Joins::both_read, crate::proofs::Joins::made_of))]
fn read_load<'a>(reader: &mut Reader<'a>) -> Event<'a>
    ensures { Takes load_at reader.old reader.new (Some (entry_of result)) }
{
    let register = reader.u16();
    let object = reader.u16();
    let place = reader.u8();
    Event::Load {
        register,
        object,
        place,
    }
}

#[tactic(auto, unfolding(crate::specs::Entries::store_at), using(crate::proofs::Joins::both_read, crate::proofs::Joins::made_of))]
fn read_store<'a>(reader: &mut Reader<'a>) -> Event<'a>
    ensures { Takes store_at reader.old reader.new (Some (entry_of result)) }
{
    let object = reader.u16();
    let place = reader.u8();
    let register = reader.u16();
    Event::Store {
        object,
        place,
        register,
    }
}

#[tactic(auto, unfolding(crate::specs::Entries::clear_at), using(crate::proofs::Joins::both_read, crate::proofs::Joins::made_of))]
fn read_clear<'a>(reader: &mut Reader<'a>) -> Event<'a>
    ensures { Takes clear_at reader.old reader.new (Some (entry_of result)) }
{
    let object = reader.u16();
    let place = reader.u8();
    Event::Clear { object, place }
}

#[tactic(auto, unfolding(crate::specs::Entries::set_word_at), using(crate::proofs::Joins::both_read, crate::proofs::Joins::made_of))]
fn read_set_word<'a>(reader: &mut Reader<'a>) -> Event<'a>
    ensures { Takes set_word_at reader.old reader.new (Some (entry_of result)) }
{
    let object = reader.u16();
    let word = reader.u64();
    Event::SetWord { object, word }
}

#[tactic(auto, unfolding(crate::specs::Entries::set_bytes_at), using(crate::proofs::Joins::both_read, crate::proofs::Joins::made_of))]
fn read_set_bytes<'a>(reader: &mut Reader<'a>) -> Event<'a>
    ensures { Takes set_bytes_at reader.old reader.new (Some (entry_of result)) }
{
    let object = reader.u16();
    let bytes = reader.bytes();
    Event::SetBytes { object, bytes }
}

#[tactic(auto, unfolding(crate::specs::Entries::patch_at), using(crate::proofs::Joins::both_read, crate::proofs::Joins::made_of))]
fn read_patch<'a>(reader: &mut Reader<'a>) -> Event<'a>
    ensures { Takes patch_at reader.old reader.new (Some (entry_of result)) }
{
    let object = reader.u16();
    let offset = reader.u32();
    let bytes = reader.bytes();
    Event::Patch {
        object,
        offset,
        bytes,
    }
}

#[tactic(auto, unfolding(crate::specs::Entries::give_at), using(crate::proofs::Joins::both_read, crate::proofs::Joins::made_of))]
fn read_give<'a>(reader: &mut Reader<'a>) -> Event<'a>
    ensures { Takes give_at reader.old reader.new (Some (entry_of result)) }
{
    let to = reader.u8();
    let label = reader.u32();
    let register = reader.u16();
    Event::Give {
        to,
        label,
        register,
    }
}

#[tactic(auto, unfolding(crate::specs::Entries::put_at), using(crate::proofs::Joins::both_read, crate::proofs::Joins::made_of))]
fn read_put<'a>(reader: &mut Reader<'a>) -> Event<'a>
    ensures { Takes put_at reader.old reader.new (Some (entry_of result)) }
{
    let object = reader.u16();
    let place = reader.u8();
    let register = reader.u16();
    Event::Put {
        object,
        place,
        register,
    }
}

#[tactic(auto, unfolding(crate::specs::Entries::get_at), using(crate::proofs::Joins::both_read, crate::proofs::Joins::made_of))]
fn read_get<'a>(reader: &mut Reader<'a>) -> Event<'a>
    ensures { Takes get_at reader.old reader.new (Some (entry_of result)) }
{
    let object = reader.u16();
    let place = reader.u8();
    let label = reader.u32();
    Event::Get {
        object,
        place,
        label,
    }
}

#[tactic(auto, unfolding(crate::specs::Entries::post_at), using(crate::proofs::Joins::both_read, crate::proofs::Joins::made_of))]
fn read_post<'a>(reader: &mut Reader<'a>) -> Event<'a>
    ensures { Takes post_at reader.old reader.new (Some (entry_of result)) }
{
    let to = reader.u8();
    let label = reader.u32();
    let first = reader.u16();
    let count = reader.u8();
    let bytes = reader.bytes();
    Event::Post {
        to,
        label,
        first,
        count,
        bytes,
    }
}

#[tactic(auto, unfolding(crate::specs::Entries::fetch_at), using(crate::proofs::Joins::both_read, crate::proofs::Joins::made_of))]
fn read_fetch<'a>(reader: &mut Reader<'a>) -> Event<'a>
    ensures { Takes fetch_at reader.old reader.new (Some (entry_of result)) }
{
    let object = reader.u16();
    let label = reader.u32();
    let offset = reader.u32();
    let count = reader.u32();
    Event::Fetch {
        object,
        label,
        offset,
        count,
    }
}

#[tactic(auto, unfolding(crate::specs::Entries::resolve_at), using(crate::proofs::Joins::both_read, crate::proofs::Joins::made_of))]
fn read_resolve<'a>(reader: &mut Reader<'a>) -> Event<'a>
    ensures { Takes resolve_at reader.old reader.new (Some (entry_of result)) }
{
    let register = reader.u16();
    let reference = read_reference(reader, Version::Second);
    Event::Resolve {
        register,
        reference,
    }
}

#[tactic(auto, unfolding(frames::specs::Formats::head), using(crate::proofs::Joins::both_read))]
fn read_head(reader: &mut Reader) -> (u8, (u8, u64))
    ensures { Reads head reader.old reader.new result }
{
    let from = reader.u8();
    let to = reader.u8();
    let number = reader.u64();
    (from, (to, number))
}

#[tactic(auto, unfolding(crate::specs::Entries::received_at, frames::specs::Formats::sent), using(crate::proofs::Joins::both_read, crate::proofs::Joins::tested))]
fn read_data(alloc: Global, reader: &mut Reader) -> Result<Option<Data>, Refusal>
    ensures value { IfOk result
        (λ o. Takes received_at reader.old reader.new (option_map received_of o)) }
    ensures refused { IfErr result (λ e. e ≡ Memory) }
{
    let (from, (to, number)) = read_head(reader);
    let stamp = reader.u64();
    let body = read_wide_body(alloc, reader, Version::Second)?;
    Ok(Data::new(from, to, number, stamp, body))
}

#[tactic(auto, unfolding(crate::specs::Entries::acknowledged_at, frames::specs::Formats::known), using(crate::proofs::Joins::tested))]
fn read_ack(reader: &mut Reader) -> Option<Ack>
    ensures { Takes acknowledged_at reader.old reader.new (option_map acknowledged_of result) }
{
    let (by, (of, number)) = read_head(reader);
    Ack::new(by, of, number)
}

// An event that isn't a message.
#[tactic(auto, unfolding(crate::specs::Entries::entry), using(crate::proofs::Joins::tags))]
fn read_other<'a>(tag: u8, reader: &mut Reader<'a>) -> Option<Event<'a>>
    requires { tag ≢ 0x45 }
    ensures { Takes (behind entries tag) reader.old reader.new (option_map entry_of result) }
{
    match tag {
        ALLOC => Some(read_alloc(reader)),
        COPY => Some(read_copy(reader)),
        DROP => Some(Event::Drop {
            register: reader.u16(),
        }),
        LOAD => Some(read_load(reader)),
        STORE => Some(read_store(reader)),
        CLEAR => Some(read_clear(reader)),
        WORD => Some(Event::Word {
            object: reader.u16(),
        }),
        SET_WORD => Some(read_set_word(reader)),
        GIVE => Some(read_give(reader)),
        ACCEPT => Some(Event::Accept {
            register: reader.u16(),
        }),
        PUT => Some(read_put(reader)),
        GET => Some(read_get(reader)),
        BEGIN => Some(Event::Begin),
        SCAN => Some(Event::Scan),
        PASS => Some(Event::Pass),
        SWEEP => Some(Event::Sweep {
            count: reader.u32(),
        }),
        NEXT => Some(Event::Next { from: reader.u8() }),
        SET_BYTES => Some(read_set_bytes(reader)),
        PATCH => Some(read_patch(reader)),
        RECLAIM => Some(Event::Reclaim { scope: Scope::All }),
        RECLAIM_YOUNG => Some(Event::Reclaim {
            scope: Scope::Young,
        }),
        POST => Some(read_post(reader)),
        FETCH => Some(read_fetch(reader)),
        RESOLVE => Some(read_resolve(reader)),
        ACK => match read_ack(reader) {
            Some(ack) => Some(Event::Ack(ack)),
            None => None,
        },
        _ => None,
    }
}

/// Reads an event from the front of what is left, whose bytes it borrows. If no event is there, the
/// reader has failed, or the call returns `None`. Fails with `Memory` if an allocation fails; only
/// the references and bytes of a received letter are allocated.
#[tactic(auto, unfolding(crate::specs::Entries::entry), using(crate::proofs::Joins::tags))]
pub fn read_event<'a>(alloc: Global, reader: &mut Reader<'a>) -> Result<Option<Event<'a>>, Refusal>
    ensures value { IfOk result
        (λ o. Takes entry.read reader.old reader.new (option_map entry_of o)) }
    ensures refused { IfErr result (λ e. e ≡ Memory) }
{
    let tag = reader.u8();
    if tag != DATA {
        return Ok(read_other(tag, reader));
    }
    match read_data(alloc, reader)? {
        Some(message) => Ok(Some(Event::Data(message))),
        None => Ok(None),
    }
}
