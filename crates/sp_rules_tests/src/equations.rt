//! On equations and sums: `simp`, `rewrite` and `linear`. The answers are those of an independent implementation.

use crate::calls::{Call, Equation, Logic};
use crate::states::Row;

pub static EQUATIONS: [Row; 16] = [
    Row {
        hypotheses: &[],
        goals: &["(a = a)", "(b = 1)"],
        before: &[Call::Logic(Logic::Split)],
        step: Call::Equation(Equation::Simp(None)),
        after: "|- (b = 1)",
    },
    Row {
        hypotheses: &[],
        goals: &["(a = a)"],
        before: &[],
        step: Call::Equation(Equation::Simp(None)),
        after: "",
    },
    Row {
        hypotheses: &[],
        goals: &["true"],
        before: &[],
        step: Call::Equation(Equation::Simp(None)),
        after: "",
    },
    Row {
        hypotheses: &[],
        goals: &["(a = a)", "(b = 1)"],
        before: &[],
        step: Call::Equation(Equation::Simp(None)),
        after: "|- (b = 1)",
    },
    Row {
        hypotheses: &["(a = 3)"],
        goals: &["(b = 1)"],
        before: &[],
        step: Call::Equation(Equation::Simp(Some(2))),
        after: "NoApply",
    },
    Row {
        hypotheses: &["(a = b)"],
        goals: &["(a = 3)"],
        before: &[],
        step: Call::Equation(Equation::Rewrite(1, None, false)),
        after: "(a = b) |- (b = 3)",
    },
    Row {
        hypotheses: &["((a + 1) = a)"],
        goals: &["((((a + 1) + 1) + 1) = 3)"],
        before: &[],
        step: Call::Equation(Equation::Rewrite(1, None, false)),
        after: "((a + 1) = a) |- (((a + 1) + 1) = 3)",
    },
    Row {
        hypotheses: &["(a = b)"],
        goals: &["(d = 3)"],
        before: &[],
        step: Call::Equation(Equation::Rewrite(1, Some(1), true)),
        after: "(a = b), (a = a) |- (d = 3)",
    },
    Row {
        hypotheses: &["(((256 * h) + l) = 8192)"],
        goals: &["(element(update(mem,[((256 * h) + l)],a),[(((256 * h) + l) + 1)]) = 0)"],
        before: &[],
        step: Call::Equation(Equation::Rewrite(1, None, false)),
        after: "(((256 * h) + l) = 8192) |- (element(update(mem,[8192],a),[(8192 + 1)]) = 0)",
    },
    Row {
        hypotheses: &["(a = b)"],
        goals: &["(b = 3)"],
        before: &[],
        step: Call::Equation(Equation::Rewrite(1, None, false)),
        after: "NoApply",
    },
    Row {
        hypotheses: &["(a <= b)"],
        goals: &["(a = 3)"],
        before: &[],
        step: Call::Equation(Equation::Rewrite(1, None, false)),
        after: "NoApply",
    },
    Row {
        hypotheses: &["(a = b)"],
        goals: &["(a = 3)"],
        before: &[],
        step: Call::Equation(Equation::Rewrite(2, None, false)),
        after: "NoApply",
    },
    Row {
        hypotheses: &["(b~ <= c~)"],
        goals: &["(b~ < (c~ + 1))"],
        before: &[],
        step: Call::Equation(Equation::Linear(1, &[(1, 1)])),
        after: "",
    },
    Row {
        hypotheses: &["(a = b)"],
        goals: &["(b <= a)"],
        before: &[],
        step: Call::Equation(Equation::Linear(1, &[(-1, 1)])),
        after: "",
    },
    Row {
        hypotheses: &["(b~ <= c~)"],
        goals: &["(b~ < (c~ + 1))"],
        before: &[],
        step: Call::Equation(Equation::Linear(1, &[(2, 1)])),
        after: "NoApply",
    },
    Row {
        hypotheses: &["(a = b)", "(b <= c)"],
        goals: &["(a = b)"],
        before: &[],
        step: Call::Equation(Equation::Linear(1, &[(1, 1), (0, 2)])),
        after: "NoApply",
    },
];
