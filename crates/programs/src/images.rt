//! The images that a process takes of its node for saves. They decide when an answer may leave.
ghost use Rattle.std.specs.Prelude.{◌≡◌, ◌↔◌, IsTrue};
ghost use Rattle.programs.specs.Images.{begun_images, changed_images, failed_images, image_due};
ghost use Rattle.programs.specs.Images.{may_begin, may_leave, stored_images};
ghost use Rattle.programs.specs.Images.{MayBegin, MayLeave};

/// The number of no image.
pub const NEVER: u64 = u64::MAX;

/// The images of a process, which are numbered from 1 on. All numbers of a new process are 0. A
/// flag is 0 for no; any other number means yes.
#[repr(C)]
#[derive(Clone, Copy)]
pub struct Images {
    /// The number of the last one that was taken.
    pub taken: u64,
    /// That of the last one of which is known that it is stored.
    pub kept: u64,
    /// Whether the next one is due: something has changed since the last one was taken, or that
    /// could not be stored.
    pub changed: u8,
    /// Whether the last one is being saved.
    pub saving: u8,
}

impl Images {
    /// Something has changed.
    pub fn change(&mut self)
        ensures { self.new ≡ changed_images self.old }
    {
        self.changed = 1;
    }

    /// Whether a save may begin: one is due, none is under way, and a number is left.
    pub fn may_begin(&self) -> bool
        ensures means { IsTrue result ↔ MayBegin self.now }
        ensures same { result ≡ may_begin self.now }
    {
        self.changed != 0 && self.saving == 0 && self.taken < NEVER - 1
    }

    /// Takes the next image, for a save that begins, if one may. Returns whether it did.
    pub fn begin(&mut self) -> bool
        ensures means { IsTrue result ↔ MayBegin self.old }
        ensures after { self.new ≡ begun_images self.old result }
    {
        if !self.may_begin() {
            return false;
        }
        self.taken += 1;
        self.changed = 0;
        self.saving = 1;
        true
    }

    /// The save that was under way is stored. Without one, nothing happens.
    pub fn stored(&mut self)
        ensures { self.new ≡ stored_images self.old }
    {
        if self.saving != 0 {
            self.kept = self.taken;
            self.saving = 0;
        }
    }

    /// The save that was under way failed, so another one is due. Without one, nothing happens.
    pub fn failed(&mut self)
        ensures { self.new ≡ failed_images self.old }
    {
        if self.saving != 0 {
            self.changed = 1;
            self.saving = 0;
        }
    }

    /// The number of the image that will hold all that has happened so far.
    pub fn due(&self) -> u64
        ensures { result ≡ image_due self.now }
    {
        if self.changed != 0 && self.taken < NEVER {
            self.taken + 1
        } else {
            self.taken
        }
    }

    /// Whether an answer may leave that shows what the image `due` holds.
    pub fn may_leave(&self, due: u64) -> bool
        ensures means { IsTrue result ↔ MayLeave self.now due }
        ensures same { result ≡ may_leave self.now due }
    {
        due <= self.kept && due < NEVER
    }
}
