//! Conditions, and what is left of them.

/// Hypotheses and goals, and those that are left.
pub struct Row {
    pub hypotheses: &'static [&'static str],
    pub goals: &'static [&'static str],
    pub left: &'static [&'static str],
    pub open: &'static [&'static str],
}

pub static CONDITIONS: [Row; 9] = [
    // no formulas
    Row {
        hypotheses: &[],
        goals: &[],
        left: &[],
        open: &[],
    },
    // a goal that is a hypothesis
    Row {
        hypotheses: &["(a = 0)"],
        goals: &["((a + 0) = 0)", "(b = b)"],
        left: &["(a = 0)"],
        open: &[],
    },
    // hypotheses and goals that are split
    Row {
        hypotheses: &["((a = 0) and ((b = 0) and (c = 0)))", "(b = 0)"],
        goals: &["((c = 0) and (d = 0))"],
        left: &["(a = 0)", "(b = 0)", "(c = 0)"],
        open: &["(d = 0)"],
    },
    // hypotheses that are true or stand before
    Row {
        hypotheses: &["true", "(a < b)", "(a < b)", "(a < 256)"],
        goals: &["(a <= b)"],
        left: &["(a < b)"],
        open: &["(a <= b)"],
    },
    // a goal that stands before
    Row {
        hypotheses: &[],
        goals: &["(a < b)", "(c = d)", "(a < b)", "((c = d) and (a < e))"],
        left: &[],
        open: &["(a < b)", "(c = d)", "(a < e)"],
    },
    // a hypothesis that is false leaves no goal
    Row {
        hypotheses: &["(a < a)", "(b = 3)"],
        goals: &["(c = 4)"],
        left: &["false", "(b = 3)"],
        open: &[],
    },
    // a goal that is false stays
    Row {
        hypotheses: &["(b = 3)"],
        goals: &["(a < a)"],
        left: &["(b = 3)"],
        open: &["false"],
    },
    // negations turn round
    Row {
        hypotheses: &["(not (a <= b))"],
        goals: &["(b < a)", "(a < b)"],
        left: &["(b < a)"],
        open: &["(a < b)"],
    },
    // an `or` isn't split
    Row {
        hypotheses: &["((a = 0) or (b = 0))"],
        goals: &["(a = 0)", "((b = 0) or (a = 0))"],
        left: &["((a = 0) or (b = 0))"],
        open: &["(a = 0)", "((b = 0) or (a = 0))"],
    },
];
