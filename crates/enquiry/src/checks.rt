//! The calls that read a record: check and resume.
ghost use Rattle.std.specs.Prelude.{◌≡◌};
ghost use Rattle.model.specs.Calls.{Check, Resume};
ghost use Rattle.enquiry.specs.Promises.{Promised, IfRefused};

use crate::calls::Enquiry;
use crate::formed::malformed;
use crate::walk::walk;
use fault::{EnquiryFault, Fault};
use plan::Plan;
use route::Rule;
use search::Progress;

impl<P: Plan, R: Rule> Enquiry<P, R> {
    /// Whether the record at the front of the words is one of an answer.
    pub fn check(&self, words: &[u16]) -> Result<bool, Fault>
        ensures { Promised P.Plan.meaning R.Rule.meaning self.now self.now (λ n s u. Check n s words.now result u) }
    {
        let Some(cursor) = &self.cursor else {
            return Err(Fault::Enquiry(EnquiryFault::Unposed(0)));
        };
        if let Some(place) = malformed(words) {
            return Err(Fault::Enquiry(EnquiryFault::Malformed(place)));
        }
        Ok(walk(&self.search, cursor, words).is_some())
    }

    /// Stands behind the answer whose record is at the front of the words.
    pub fn resume(&mut self, words: &[u16]) -> Result<(), Fault>
        ensures relation { Promised P.Plan.meaning R.Rule.meaning self.old self.new (λ n s u. Resume n s words.now result u) }
        ensures same { self.new.search ≡ self.old.search }
        ensures refused { IfRefused result (self.new ≡ self.old) }
    {
        let Some(cursor) = &mut self.cursor else {
            return Err(Fault::Enquiry(EnquiryFault::Unposed(0)));
        };
        if let Some(place) = malformed(words) {
            return Err(Fault::Enquiry(EnquiryFault::Malformed(place)));
        }
        let Some(route) = walk(&self.search, cursor, words) else {
            return Err(Fault::Enquiry(EnquiryFault::NotAnswer(0)));
        };
        cursor.progress = Progress::Behind(route);
        Ok(())
    }
}
