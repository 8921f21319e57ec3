//! A borrowed disk, which still exists after its holder has dropped it.
use disk::{Area, Disk, DiskFault};

/// A disk that belongs to somebody else.
#[derive(Drop)]
pub(crate) struct Lent<'a, D> {
    pub disk: &'a mut D,
}

impl<'a, D: Disk> Disk for Lent<'a, D> {
    ghost seen = { λ l. D.seen l.disk.now };

    ghost may_leave = { λ l. D.may_leave l.disk.now };

    ghost moment = { λ l. D.moment l.disk.now };

    ghost left_since = { λ l. D.left_since l.disk.now };

    ghost faults = { λ l. D.faults l.disk.now };

    ghost seals = { λ l. D.seals l.disk.now };

    fn read(&mut self, area: Area, at: usize, into: &mut [u8]) -> Result<usize, DiskFault> {
        self.disk.read(area, at, into)
    }

    fn write_at(&mut self, area: Area, at: usize, bytes: &[u8]) -> Result<(), DiskFault> {
        self.disk.write_at(area, at, bytes)
    }

    fn sync(&mut self) -> Result<(), DiskFault> {
        self.disk.sync()
    }

    fn failures(&self) -> u64 {
        self.disk.failures()
    }

    fn seals(&self) -> bool {
        self.disk.seals()
    }

    ghost reads_left = { λ l. D.reads_left l.disk.now };

    ghost counts_now = { λ l t c le now. D.counts_now l.disk.now t c le now };

    ghost only_now = { λ l c left. D.only_now l.disk.now c left };
}
