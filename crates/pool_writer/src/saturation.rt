// The members of a pool, as a text.

ghost use Rattle.std.specs.Prelude.{◌≡◌, ◌++◌, map, IfOk};
ghost use Rattle.term_bank.specs.Bank.{identity};
ghost use Rattle.bank_clause.specs.Clause.{AreMembersOf, IsMemberOf, clause_at};
ghost use Rattle.pool_history.specs.Replay.{replay};
ghost use Rattle.pool_history.specs.Saturated.{members_of};
ghost use Rattle.tptp_tree.specs.Printing.{formula_text};
ghost use Rattle.tstp_writer.specs.ClauseTrees.{literal_formula, one_of};
ghost use Rattle.pool_writer.specs.Saturation.{member_text, saturation_text};

use bank_clause::Member;
use clausal_form::Clausal;
use fol_base::LendsLiterals;
use plain_types::{Mem, Text};
use pool_core::Pool;
use signature::Symbol;
use std::alloc::Global;
use term_bank::Bank;
use tstp_writer::{Page, push_clause};

/// The names after a clause's literals begin so. Members are printed without names.
const NAME_PREFIX: &[u8] = b"spl";

/// A line for each living awake clause, in the order of their numbers: `cnf(s0,plain,p(X0)).` and so on. The clauses stand without the
/// names that they assert, over the form's symbols. Linear in the clauses and the text.
pub fn write_saturation(alloc: Global, form: &Clausal, bank: &Bank, pool: &Pool) -> Mem<Text>
    requires { pool.now.bank ≡ identity bank.now }
    ensures { IfOk result (λ text. text ≡ saturation_text form.now.signature (members_of (replay pool.now.origin pool.now.history))) }
{
    let members = pool.members(alloc)?;
    let mut page = Page::new(alloc);
    push_members(
        &mut page,
        form.signature.as_slice(),
        bank,
        members.as_slice(),
    )?;
    Ok(page.into_text())
}

/// Adds the lines of members.
fn push_members(page: &mut Page, symbols: &[Symbol], bank: &Bank, members: &[Member]) -> Mem<()>
    requires { AreMembersOf bank.now members.now }
    ensures { IfOk result (λ _. page.new ≡ page.old
        ++ saturation_text symbols.now (map (λ m. clause_at m.clause) members.now)) }
{
    for (place, member) in members.iter().enumerate() {
        push_member(page, symbols, bank, place as u64, member)?;
    }
    Ok(())
}

/// Adds the line of a member, by its place among them.
fn push_member(
    page: &mut Page,
    symbols: &[Symbol],
    bank: &Bank,
    place: u64,
    member: &Member,
) -> Mem<()>
    requires { IsMemberOf bank.now member.now }
    ensures { IfOk result (λ _. page.new ≡ page.old ++ member_text symbols.now (place, clause_at member.now.clause)) }
{
    page.bytes(b"cnf(s")?;
    page.number(place)?;
    page.bytes(b",plain,")?;
    push_literals(page, symbols, &member.clause.lend(bank))?;
    page.bytes(b").\n")
}

/// Adds literals as a clause without names.
fn push_literals<L: LendsLiterals>(page: &mut Page, symbols: &[Symbol], literals: &L) -> Mem<()>
    ensures { IfOk result (λ _. page.new ≡ page.old ++ formula_text (one_of (map (literal_formula symbols.now) (L.meaning literals.now)))) }
{
    push_clause(page, symbols, NAME_PREFIX, literals, &[])
}
