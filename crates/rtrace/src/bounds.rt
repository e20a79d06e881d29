// The bounds that a report gives for waits, kept until its history is complete.
ghost use Rattle.std.specs.Prelude.{◌≡◌, ◌++◌, ◌∷◌, ◌<◌, ◌^◌, [], List, length, OnOk, IfOk, option_map, true};
ghost use Rattle.rbound.specs.Bounds.{numbers_in};
ghost use Rattle.rmodel.specs.Steps.{AreAccepted};
ghost use Rattle.rcover.specs.Past.{Past, start_of, with_event};
ghost use Rattle.rbound_history.specs.Keys.{IsLastEnded};
ghost use Rattle.rtrace.specs.Told.{Told, AreBefore};
ghost use Rattle.rtrace_form.specs.Records.{Row};
ghost use Rattle.rtrace_form.specs.Faults.{read_all};
ghost use Rattle.rtrace_form.specs.SoFar.{at_end};
ghost use Rattle.rtrace_form.specs.WrongBounds.{first_wrong_bound, wrong_bound};
ghost use Rattle.rtrace_read.specs.Knows.{Knows};
ghost use Rattle.rtrace.specs.ToldBounds.{AreTold, IsMade, KnowsBounds, HasRead};
ghost use Rattle.rtrace_read.specs.declared.reading.ReportReader.{ReportReader};

use crate::told_bounds::ToldBounds;
use rclaim::Event;
use rtrace_read::{BoundTold, ReportReader, TakenRecord};
use std::alloc::{AllocError, Global};

/// What a taker of a report keeps of its bounds. It grows with the shapes of requests, not with waits or events.
#[derive(Drop)]
pub struct BoundsKept {
    /// The reported bounds so far, made at the first event: after it no task is declared.
    pub told: Option<ToldBounds>,
    /// How many records were taken.
    pub records: u64,
}

impl BoundsKept {
    /// No record was taken. No memory is taken.
    pub fn new() -> BoundsKept
        ensures { KnowsBounds result [] }
    {
        BoundsKept {
            told: None,
            records: 0,
        }
    }

    /// Takes what another record said to a reader.
    ///
    /// # Errors
    ///
    /// Out of memory. Nothing is promised then of what is kept.
    pub fn take(
        &mut self,
        alloc: Global,
        reading: &ReportReader,
        taken: &TakenRecord,
    ) -> Result<(), AllocError>
        requires { (old : ReportReader) × (rows : List Row) × (row : Row) × KnowsBounds self.old rows × HasRead old reading.now rows row taken.now × (length rows < 2 ^ 62) }
        ensures { OnOk result ((old : ReportReader) (rows : List Row) (row : Row) → KnowsBounds self.old rows → HasRead old reading.now rows row taken.now → KnowsBounds self.new (rows ++ row ∷ [])) }
    {
        self.records += 1;
        match taken {
            TakenRecord::Event(event) => self.happen(alloc, reading.tasks.len(), event),
            TakenRecord::Wait(told) => self.tell(told),
            TakenRecord::Act(_) => Ok(()),
            TakenRecord::Other => Ok(()),
        }
    }

    // Takes an event.
    fn happen(&mut self, alloc: Global, tasks: u8, event: &Event) -> Result<(), AllocError>
        requires { (p : Past) × (items : List Told) × AreTold self.old.told p items × AreAccepted (start_of p) (p.events ++ event.now ∷ []) × (tasks ≡ p.seats) }
        ensures told { OnOk result ((p : Past) (items : List Told) → AreTold self.old.told p items → AreAccepted (start_of p) (p.events ++ event.now ∷ []) → tasks ≡ p.seats → AreTold self.new.told (with_event p event.now) items) }
        ensures records { self.new.records ≡ self.old.records }
    {
        self.make(alloc, tasks)?;
        match &mut self.told {
            Some(told) => told.happen(event),
            None => Ok(()),
        }
    }

    // Makes what judges bounds, if it is not there.
    fn make(&mut self, alloc: Global, tasks: u8) -> Result<(), AllocError>
        ensures made { OnOk result (IsMade tasks self.old.told self.new.told) }
        ensures records { self.new.records ≡ self.old.records }
    {
        if self.told.is_none() {
            self.make_first(alloc, tasks)
        } else {
            Ok(())
        }
    }

    // Makes what judges bounds. Room for it is kept out of the path of each event.
    #[cold]
    #[inline(never)]
    fn make_first(&mut self, alloc: Global, tasks: u8) -> Result<(), AllocError>
        ensures made { OnOk result (IsMade tasks None self.new.told) }
        ensures records { self.new.records ≡ self.old.records }
    {
        self.told = Some(ToldBounds::new(alloc, tasks)?);
        Ok(())
    }

    // Takes the bound that the latest record reports for a wait that the last event ended.
    fn tell(&mut self, told: &BoundTold) -> Result<(), AllocError>
        requires { (p : Past) × (items : List Told) × AreTold self.old.told p items × IsLastEnded p.groups p.seats p.cap p.events told.now.wait × AreBefore self.old.records items }
        ensures told { OnOk result ((p : Past) (items : List Told) → AreTold self.old.told p items → IsLastEnded p.groups p.seats p.cap p.events told.now.wait → AreBefore self.old.records items
            → AreTold self.new.told p (items ++ record { number = self.old.records; wait = told.now.wait; bound = numbers_in told.now.bound } ∷ [])) }
        ensures records { self.new.records ≡ self.old.records }
    {
        let number = self.records;
        match &mut self.told {
            Some(kept) => kept.told(&told.wait, told.bound, number),
            None => Ok(()),
        }
    }

    /// The number of the first record that reported a wrong bound, once the report has ended; None where all were
    /// right.
    ///
    /// # Errors
    ///
    /// Out of memory.
    pub fn first_wrong(
        &self,
        alloc: Global,
        reading: &ReportReader,
    ) -> Result<Option<u64>, AllocError>
        requires { (rows : List Row) × KnowsBounds self.now rows × Knows true reading.now (read_all true rows) × ((read_all true rows).last ≡ at_end) }
        ensures { IfOk result (λ number. (rows : List Row) → KnowsBounds self.now rows → Knows true reading.now (read_all true rows) → (read_all true rows).last ≡ at_end → option_map wrong_bound number ≡ first_wrong_bound true rows) }
    {
        match (&self.told, &reading.groups) {
            (Some(told), Some(groups)) => {
                let cap = reading.cap.unwrap_or(reading.tasks.len());
                told.first_wrong(alloc, groups.copy(alloc)?, cap)
            }
            _ => Ok(None),
        }
    }
}
