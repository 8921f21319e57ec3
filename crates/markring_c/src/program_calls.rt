//! The calls of `include/markring_programs.h`: decisions on the programs of a node, and on its
//! images. What they decide is in the crate `programs`.
ghost use Rattle.std.specs.Prelude.{◌≡◌};
ghost use Rattle.programs.specs.Decisions.{forgotten, SpeaksFor};
ghost use Rattle.programs.specs.Images.{begun_images, changed_images, failed_images, image_due};
ghost use Rattle.programs.specs.Images.{may_begin, stored_images, MayBegin, MayLeave};
ghost use Rattle.markring_c.specs.Programs.{opening_verdict, request_verdict, IsFlagOf};
ghost use Rattle.markring_c.specs.Programs.{JudgesOpening, JudgesRequest};
ghost use Rattle.markring_c.specs.Programs.{TakesOpening, TakesRequest};

use programs::{Images, Opening, Program, Request};

fn opening_verdict(opening: Opening) -> i32
    ensures { result ≡ opening_verdict opening }
{
    match opening {
        Opening::New => 0,
        Opening::Again => 1,
        Opening::Stale => 2,
        Opening::Malformed => 5,
    }
}

fn request_verdict(request: Request) -> i32
    ensures { result ≡ request_verdict request }
{
    match request {
        Request::Next => 0,
        Request::Repeated => 1,
        Request::Stale => 2,
        Request::Ahead => 3,
        Request::Superseded => 4,
        Request::Malformed => 5,
    }
}

/// What an opening is.
#[unsafe(no_mangle)]
pub extern "C" fn markring_program_judge_opening(
    program: &Program,
    session: u64,
    number: u64,
) -> i32
    ensures { JudgesOpening program.now session number result }
{
    opening_verdict(program.judge_opening(session, number))
}

/// What an opening is; it is taken if it is the next one.
#[unsafe(no_mangle)]
pub extern "C" fn markring_program_open(program: &mut Program, session: u64, number: u64) -> i32
    ensures { TakesOpening program.old program.new session number result }
{
    opening_verdict(program.open(session, number))
}

/// What a request is.
#[unsafe(no_mangle)]
pub extern "C" fn markring_program_judge_request(
    program: &Program,
    session: u64,
    number: u64,
) -> i32
    ensures { JudgesRequest program.now session number result }
{
    request_verdict(program.judge_request(session, number))
}

/// What a request is; if it is the next one, it was performed.
#[unsafe(no_mangle)]
pub extern "C" fn markring_program_perform(program: &mut Program, session: u64, number: u64) -> i32
    ensures { TakesRequest program.old program.new session number result }
{
    request_verdict(program.perform(session, number))
}

/// Whether the process with this session speaks for the program: 1 or 0.
#[unsafe(no_mangle)]
pub extern "C" fn markring_program_speaks_for(program: &Program, session: u64) -> i32
    ensures { IsFlagOf (SpeaksFor program.now session) result }
{
    if program.speaks_for(session) { 1 } else { 0 }
}

/// Nobody speaks for the program until it is opened again.
#[unsafe(no_mangle)]
pub extern "C" fn markring_program_forget(program: &mut Program)
    ensures { program.new ≡ forgotten program.old }
{
    program.forget();
}

/// Something of the node or of a program has changed.
#[unsafe(no_mangle)]
pub extern "C" fn markring_images_change(images: &mut Images)
    ensures { images.new ≡ changed_images images.old }
{
    images.change();
}

/// Whether a save may begin: 1 or 0.
#[unsafe(no_mangle)]
pub extern "C" fn markring_images_may_begin(images: &Images) -> i32
    ensures { IsFlagOf (MayBegin images.now) result }
{
    if images.may_begin() { 1 } else { 0 }
}

/// Takes the next image, for a save that begins, if one may: 1 or 0.
#[unsafe(no_mangle)]
pub extern "C" fn markring_images_begin(images: &mut Images) -> i32
    ensures flag { IsFlagOf (MayBegin images.old) result }
    ensures after { images.new ≡ begun_images images.old (may_begin images.old) }
{
    if images.begin() { 1 } else { 0 }
}

/// The save that was under way is stored.
#[unsafe(no_mangle)]
pub extern "C" fn markring_images_stored(images: &mut Images)
    ensures { images.new ≡ stored_images images.old }
{
    images.stored();
}

/// The save that was under way failed.
#[unsafe(no_mangle)]
pub extern "C" fn markring_images_failed(images: &mut Images)
    ensures { images.new ≡ failed_images images.old }
{
    images.failed();
}

/// The image that will hold what has happened so far.
#[unsafe(no_mangle)]
pub extern "C" fn markring_images_due(images: &Images) -> u64
    ensures { result ≡ image_due images.now }
{
    images.due()
}

/// Whether an answer may leave: 1 or 0.
#[unsafe(no_mangle)]
pub extern "C" fn markring_images_may_leave(images: &Images, due: u64) -> i32
    ensures { IsFlagOf (MayLeave images.now due) result }
{
    if images.may_leave(due) { 1 } else { 0 }
}
