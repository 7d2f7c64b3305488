// The formulas that an include takes. (A file with a ghost field may not name definitions that speak of its struct, so this stands apart.)

ghost use Rattle.std.specs.Prelude.{◌≡◌, ◌++◌, [], ◌∷◌, map, IfOk};
ghost use Rattle.tptp_problem.specs.Languages.{selects as selects_name, selected, missing as missing_among};
ghost use Rattle.tptp_problem.specs.Shape.{selections};

use crate::entry::Entry;
use crate::name_set::{has_name, set_of, take_out};
use crate::selection::Selection;
use plain_types::Mem;
use std::alloc::Global;

impl<'a, 'k> Selection<'a, 'k> {
    /// Whether it takes the formulas of that name.
    pub fn selects(&self, name: &[u8]) -> bool
        ensures { result ≡ selects_name self.now.names.now name.now }
    {
        self.names.is_empty() || has_name(self.known, name)
    }

    /// The index of its first name that none of the formulas has. It takes memory for its own names alone.
    pub fn missing<E: Entry>(&self, alloc: Global, formulas: &[E]) -> Mem<Option<usize>>
        ensures { IfOk result (λ index. index ≡ missing_among E.language self.now.names.now (map E.placed formulas.now)) }
    {
        if self.names.is_empty() {
            return Ok(None);
        }
        let mut absent = set_of(alloc, self.names)?;
        take_out(&mut absent, formulas);
        for (index, name) in self.names.iter().enumerate() {
            if has_name(&absent, name.as_slice()) {
                return Ok(Some(index));
            }
        }
        Ok(None)
    }

    /// Moves the formulas that it takes to the end of a list, in their order.
    pub fn take<E: Entry>(&self, formulas: Vec<E>, list: &mut Vec<E>) -> Mem<()>
        ensures { IfOk result (λ _. map E.placed list.new.items
            ≡ map E.placed list.old.items ++ selected E.language self.now.names.now (map E.placed formulas.items)) }
    {
        for formula in formulas {
            if self.selects(formula.name()) {
                list.push(formula)?;
            }
        }
        Ok(())
    }

    /// The selections, and this one inside them.
    pub fn within(self, alloc: Global, around: &[Selection<'a, 'k>]) -> Mem<Vec<Selection<'a, 'k>>>
        ensures { IfOk result (λ all. selections all.items ≡ selections around.now ++ self.entry.names.now ∷ []) }
    {
        let mut all = Vec::new(alloc);
        all.extend_from_slice(around)?;
        all.push(self)?;
        Ok(all)
    }
}
