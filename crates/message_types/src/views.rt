ghost use Rattle.std.specs.Prelude.{◌≡◌, ◌↔◌, IsTrue, IfOk};

use crate::ordering::{Certificate, Mark, Rows};
use crate::signed::Signed;
use plain_lists::{Copied, Items, Same, Want};

/// What a master brings into view `v`: its stable number with the marks that show it, and a certificate for each later number that it knows prepared (PBFT's VIEW-CHANGE).
pub struct Report {
    pub v: u64,
    pub base: u64,
    pub marks: Items<Signed<Mark>>,
    pub certificates: Items<Certificate>,
}

// Taken apart here once, so that no crate above proves it again.
impl Drop for Report {
    fn drop(self) {
        let Report {
            v: _,
            base: _,
            marks: _,
            certificates: _,
        } = self;
    }
}

impl Copied for Report {
    fn copy(&self) -> Result<Self, Want> {
        Ok(Report {
            v: self.v,
            base: self.base,
            marks: self.marks.copy()?,
            certificates: self.certificates.copy()?,
        })
    }
}

impl Same for Report {
    fn is_same(&self, other: &Self) -> bool {
        self.v == other.v
            && self.base == other.base
            && self.marks.is_same(&other.marks)
            && self.certificates.is_same(&other.certificates)
    }
}

/// The leader opens view `v` with the reports of a quorum (PBFT's NEW-VIEW).
pub struct NewView {
    pub v: u64,
    pub reports: Items<Signed<Report>>,
}

// Taken apart here once, so that no crate above proves it again.
impl Drop for NewView {
    fn drop(self) {
        let NewView { v: _, reports: _ } = self;
    }
}

impl Copied for NewView {
    fn copy(&self) -> Result<Self, Want> {
        Ok(NewView {
            v: self.v,
            reports: self.reports.copy()?,
        })
    }
}

impl Same for NewView {
    fn is_same(&self, other: &Self) -> bool {
        self.v == other.v && self.reports.is_same(&other.reports)
    }
}

/// What a view offers first: the rows of the numbers after `base`, in order.
pub struct Plan {
    pub base: u64,
    pub rows: Items<Rows>,
}

// Taken apart here once, so that no crate above proves it again.
impl Drop for Plan {
    fn drop(self) {
        let Plan { base: _, rows: _ } = self;
    }
}

impl Copied for Plan {
    fn copy(&self) -> Result<Self, Want> {
        Ok(Plan {
            base: self.base,
            rows: self.rows.copy()?,
        })
    }
}
