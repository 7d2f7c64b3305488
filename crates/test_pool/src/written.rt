// A derivation of which one line is needed, as it is written.

ghost use Rattle.std.specs.Prelude.{◌≡◌, length};
ghost use Rattle.kernel_steps.specs.declared.step.Step.TheVariants.{Clausify};
ghost use Rattle.tptp_tree.specs.ProblemSize.{HasProblemSize};
ghost use Rattle.tstp_writer.specs.Cone.{NeedEarlier};

use crate::inputs::problem_of;
use clausal_form::clausal;
use fol_base::{Clause, Literals};
use kernel_steps::{Derivation, Line, Step};
use plain_types::Names;
use std::alloc::Global;
use std::process::Abort;
use tptp_tree::Problem;
use tstp_writer::{cone, write_lines};

const FILE: &str = "r.p";

const PROBLEM: &[u8] = b"cnf(a,axiom,p). cnf(b,axiom,$false). cnf(c,axiom,q).";

/// The line of the form's clause with that number, which is written as `$false`.
fn leaf(alloc: Global, number: u64) -> Line
    ensures { result.step ≡ Clausify number }
{
    Line {
        step: Step::Clausify(number),
        clause: Clause {
            literals: Literals::new(alloc),
            names: Names::new(alloc),
        },
    }
}

/// Three lines that need no other.
fn leaves(rt: &impl Abort, alloc: Global) -> Derivation
    ensures length { length result ≡ 3 }
    ensures earlier { NeedEarlier result }
{
    let mut lines = Derivation::new(alloc);
    lines.push(leaf(alloc, 0)).expect(rt, "memory");
    lines.push(leaf(alloc, 1)).expect(rt, "memory");
    lines.push(leaf(alloc, 2)).expect(rt, "memory");
    lines
}

/// Whether the second line needs none but itself.
fn needs_itself(rt: &impl Abort, alloc: Global, lines: &Derivation) -> bool
    requires length { length lines.now ≡ 3 }
    requires earlier { NeedEarlier lines.now }
{
    let needed = cone(alloc, lines, 1).expect(rt, "memory");
    needed.as_slice() == [1u64].as_slice()
}

/// Whether this is written for the second line.
fn is_written(
    rt: &impl Abort,
    alloc: Global,
    problem: &Problem,
    lines: &Derivation,
    wanted: &[u8],
) -> bool
    requires size { HasProblemSize problem.now.formulas }
    requires length { length lines.now ≡ 3 }
    requires earlier { NeedEarlier lines.now }
{
    let form = clausal(alloc, problem).ok().expect(rt, "a form");
    let text = write_lines(alloc, problem, &form, lines, 1, FILE.as_bytes());
    text.expect(rt, "memory").as_slice() == wanted
}

/// Clausify lines that nothing needs are in neither the cone nor the text.
#[test]
fn a_leaf_is_written_alone(rt: HostRuntime) {
    let alloc = rt.alloc();
    let lines = leaves(&rt, alloc);
    assert!(rt; needs_itself(&rt, alloc, &lines));
    let problem = problem_of(&rt, alloc, PROBLEM);
    let written =
        b"cnf(c0,axiom,$false,file('r.p',b)).\ncnf(c1,plain,$false,inference(clausify,[status(esa),index(1)],[c0])).\n";
    assert!(rt; is_written(&rt, alloc, &problem, &lines, written));
}
