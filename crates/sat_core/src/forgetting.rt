// Which learned clauses are watched no more: those whose last use as a reason or as a false clause is longest ago.
// They stay in the log and on the trail. No answer rests on it.

ghost use Rattle.std.specs.Prelude.{◌≡◌, length, IfOk};

use crate::answer::Link;
use crate::clauses::Clauses;
use crate::watches::Watches;
use plain_types::Mem;
use std::alloc::Global;

/// How many learned clauses are watched before three fifths of them are forgotten.
const FIRST_LIMIT: usize = 500;
/// By how much the limit grows each time.
const LIMIT_STEP: usize = 100;
/// Clauses of at most this many literals are never forgotten.
const SHORT: usize = 2;

/// When each clause was used last, and which learned ones are watched.
#[derive(Drop)]
pub struct Forgetting {
    /// For each clause the number of the clause that was learned when it was used last.
    uses: Vec<usize>,
    /// The numbers of the learned clauses that aren't forgotten.
    watched: Vec<usize>,
    limit: usize,
}

impl Forgetting {
    /// Nothing is learned yet.
    pub fn new(alloc: Global, inputs: usize) -> Mem<Forgetting> {
        Ok(Forgetting {
            uses: vec![in alloc; 0; inputs]?,
            watched: Vec::new(alloc),
            limit: FIRST_LIMIT,
        })
    }

    /// Notes the clauses of the chain from which the next clause is learned, and forgets clauses where too many are
    /// watched.
    pub fn note(
        &mut self,
        alloc: Global,
        clauses: &Clauses<'_>,
        watches: &mut Watches,
        start: usize,
        links: &[Link],
    ) -> Mem<()>
        ensures lists { IfOk result (λ _. length watches.new.lists.items ≡ length watches.old.lists.items) }
        ensures copies { IfOk result (λ _. watches.new.copies.items ≡ watches.old.copies.items) }
    {
        let number = self.uses.len();
        self.uses.push(number)?;
        self.watched.push(number)?;
        self.note_use(start, number);
        for link in links {
            self.note_use(link.number as usize, number);
        }
        if self.watched.len() < self.limit {
            return Ok(());
        }
        self.limit = self.limit.saturating_add(LIMIT_STEP);
        let kept = self.kept(alloc, clauses)?;
        self.watched
            .retain(|number| is_kept(kept.as_slice(), *number));
        watches.keep(kept.as_slice());
        Ok(())
    }

    fn note_use(&mut self, number: usize, time: usize) {
        if number < self.uses.len() {
            self.uses[number] = time;
        }
    }

    /// For each clause whether it is watched on.
    fn kept(&self, alloc: Global, clauses: &Clauses<'_>) -> Mem<Vec<bool>> {
        let since = self.last_uses(alloc)?;
        let mut kept = Vec::with_capacity(alloc, self.uses.len())?;
        for (number, used) in self.uses.iter().enumerate() {
            kept.push(
                number < clauses.inputs.len() || *used >= since || is_short(clauses, number),
            )?;
        }
        Ok(kept)
    }

    /// The time since when two fifths of the watched clauses were used.
    fn last_uses(&self, alloc: Global) -> Mem<usize> {
        let mut times = Vec::with_capacity(alloc, self.watched.len())?;
        for number in &self.watched {
            times.push(self.uses.get(*number).copied().unwrap_or(0))?;
        }
        times.sort_unstable();
        Ok(times.get(times.len() / 5 * 3).copied().unwrap_or(0))
    }
}

/// Whether a clause is watched on; one that isn't told of is.
pub fn is_kept(kept: &[bool], number: usize) -> bool {
    kept.get(number).copied().unwrap_or(true)
}

fn is_short(clauses: &Clauses<'_>, number: usize) -> bool {
    number < clauses.len() && clauses.literals(number).len() <= SHORT
}
