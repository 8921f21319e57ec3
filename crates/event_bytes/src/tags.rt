//! The first bytes of events. Those of messages and acknowledgements are the first bytes of frames.

pub(crate) const ALLOC: u8 = 1;

pub(crate) const COPY: u8 = 2;

pub(crate) const DROP: u8 = 3;

pub(crate) const LOAD: u8 = 4;

pub(crate) const STORE: u8 = 5;

pub(crate) const CLEAR: u8 = 6;

pub(crate) const WORD: u8 = 7;

pub(crate) const SET_WORD: u8 = 8;

pub(crate) const GIVE: u8 = 9;

pub(crate) const ACCEPT: u8 = 10;

pub(crate) const PUT: u8 = 11;

pub(crate) const GET: u8 = 12;

pub(crate) const BEGIN: u8 = 13;

pub(crate) const SCAN: u8 = 14;

pub(crate) const PASS: u8 = 15;

pub(crate) const SWEEP: u8 = 16;

pub(crate) const NEXT: u8 = 17;

pub(crate) const SET_BYTES: u8 = 18;

pub(crate) const PATCH: u8 = 19;

pub(crate) const RECLAIM: u8 = 20;

pub(crate) const RECLAIM_YOUNG: u8 = 21;

pub(crate) const POST: u8 = 22;

pub(crate) const FETCH: u8 = 23;

pub(crate) const RESOLVE: u8 = 24;

pub(crate) const ACK: u8 = 0x42;

pub(crate) const DATA: u8 = 0x45;
