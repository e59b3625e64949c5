//! Conditions of a routine that clears sixteen bytes in a loop, with scripts for them and the answers.

/// A condition of the routine, by its number, and a script for it, with the answer.
pub struct Row {
    pub number: u64,
    pub hypotheses: &'static [&'static str],
    pub goals: &'static [&'static str],
    pub script: &'static str,
    pub answer: &'static str,
}

/// The store lies in the area (two goals), the bytes are cleared at the end, and the assertions hold again.
pub static ROWS: [Row; 8] = [
    Row {
        number: 2,
        hypotheses: &[
            "(a = 0)",
            "(1 <= b)",
            "(b <= 16)",
            "(((256 * h) + l) = (8208 - b))",
            "for_all(i1: 0..(15 - b), (element(mem,[(i1 + 8192)]) = 0))",
        ],
        goals: &["(8192 <= ((256 * h) + l))", "(((256 * h) + l) <= 8207)"],
        script: "script CLEAR.2\nsplit\nlinear 1 -1 h4 1 h3\nlinear 1 1 h4 1 h2\nend\n",
        answer: "proved",
    },
    Row {
        number: 3,
        hypotheses: &[
            "(a = 0)",
            "(1 <= b)",
            "(b <= 16)",
            "(((256 * h) + l) = (8208 - b))",
            "for_all(i1: 0..(15 - b), (element(mem,[(i1 + 8192)]) = 0))",
            "(((b + 255) mod 256) = 0)",
        ],
        goals: &[
            "for_all(i1: 0..15, (element(update(mem,[((256 * h) + l)],a),[(i1 + 8192)]) = 0))",
        ],
        script: "script CLEAR.3\ndivmod (b + 255) 256\ncut (b = 1)\nsplit\ncases (((b + 255) div 256) <= 1)\nlinear 1 1 h7 256 h10 1 h6\nlinear 0 -1 h7 256 h10 1 h3 -1 h6\nclose h2\nfix\nread element(update(mem,[((256 * h) + l)],a),[(k_1 + 8192)])\ncases (((256 * h) + l) = (k_1 + 8192))\nuse h13 h15\nlinear 1 1 h16 1 h1\nuse h14 h15\nat h5 k_1\nunpack h15\ncut ((0 <= k_1) and (k_1 <= (15 - b)))\nsplit\nclose h11\ncases h18\nlinear 0 1 h19 -1 h4 1 h10 1 h12\nlinear 1 1 h19 1 h4\nuse h17 h19\nlinear 1 1 h16 1 h20\nend\n",
        answer: "proved",
    },
    Row {
        number: 4,
        hypotheses: &[
            "(a = 0)",
            "(1 <= b)",
            "(b <= 16)",
            "(((256 * h) + l) = (8208 - b))",
            "for_all(i1: 0..(15 - b), (element(mem,[(i1 + 8192)]) = 0))",
            "(not (((b + 255) mod 256) = 0))",
        ],
        goals: &[
            "(1 <= ((b + 255) mod 256))",
            "(((b + 255) mod 256) <= 16)",
            "(((((256 * h) + l) + 1) mod 65536) = (8208 - ((b + 255) mod 256)))",
            "for_all(i1: 0..(15 - ((b + 255) mod 256)), (element(update(mem,[((256 * h) + l)],a),[(i1 + 8192)]) = 0))",
        ],
        script: "script CLEAR.4\ndivmod (b + 255) 256\ncut (((b + 255) div 256) = 1)\nsplit\nlinear 256 -1 h7 1 h3 1 h8\nlinear 256 1 h7 1 h9 1 h2\ncut (((b + 255) mod 256) = (b - 1))\nlinear 1 -1 h7 -256 h10\nsplit\nunpack h6\ncases h12\nlinear 0 1 h13 1 h8\nlinear 1 1 h13\nsplit\nlinear 1 1 h11 1 h3\nsplit\ndivmod (((256 * h) + l) + 1) 65536\ncut (((((256 * h) + l) + 1) div 65536) = 0)\nsplit\nlinear 65536 -1 h12 1 h13 1 h4 1 h2\nlinear 65536 1 h12 1 h14 -1 h4 1 h3\nlinear 1 -1 h12 -65536 h15 1 h4 1 h11\nfix\nread element(update(mem,[((256 * h) + l)],a),[(k_1 + 8192)])\ncases (((256 * h) + l) = (k_1 + 8192))\nuse h14 h16\nlinear 1 1 h17 1 h1\nuse h15 h16\nat h5 k_1\nunpack h16\ncut ((0 <= k_1) and (k_1 <= (15 - b)))\nsplit\nclose h12\ncases h19\nlinear 0 1 h20 -1 h4 1 h13 -1 h11\nlinear 1 1 h20 1 h4\nuse h18 h20\nlinear 1 1 h17 1 h21\nend\n",
        answer: "proved",
    },
    Row {
        number: 2,
        hypotheses: &[
            "(a = 0)",
            "(1 <= b)",
            "(b <= 16)",
            "(((256 * h) + l) = (8208 - b))",
            "for_all(i1: 0..(15 - b), (element(mem,[(i1 + 8192)]) = 0))",
        ],
        goals: &["(8192 <= ((256 * h) + l))", "(((256 * h) + l) <= 8207)"],
        script: "script CLEAR.2\ncut (element(mem,[0]) = element(mem~,[0]))\nframe mem 0\nsimp h6\nclose h7\nsplit\nlinear 1 -1 h4 1 h3\nlinear 1 1 h4 1 h2\nend\n",
        answer: "proved",
    },
    Row {
        number: 2,
        hypotheses: &[
            "(a = 0)",
            "(1 <= b)",
            "(b <= 16)",
            "(((256 * h) + l) = (8208 - b))",
            "for_all(i1: 0..(15 - b), (element(mem,[(i1 + 8192)]) = 0))",
        ],
        goals: &["(8192 <= ((256 * h) + l))", "(((256 * h) + l) <= 8207)"],
        script: "script CLEAR.2\nsplit\nlinear 1 1 h4 1 h2\nend\n",
        answer: "step 3 linear",
    },
    Row {
        number: 2,
        hypotheses: &[
            "(a = 0)",
            "(1 <= b)",
            "(b <= 16)",
            "(((256 * h) + l) = (8208 - b))",
            "for_all(i1: 0..(15 - b), (element(mem,[(i1 + 8192)]) = 0))",
        ],
        goals: &["(8192 <= ((256 * h) + l))", "(((256 * h) + l) <= 8207)"],
        script: "script CLEAR.2\nsplit\nlinear 1 -1 h4 1 h3\nend\n",
        answer: "unfinished 4",
    },
    Row {
        number: 3,
        hypotheses: &[
            "(a = 0)",
            "(1 <= b)",
            "(b <= 16)",
            "(((256 * h) + l) = (8208 - b))",
            "for_all(i1: 0..(15 - b), (element(mem,[(i1 + 8192)]) = 0))",
            "(((b + 255) mod 256) = 0)",
        ],
        goals: &[
            "for_all(i1: 0..15, (element(update(mem,[((256 * h) + l)],a),[(i1 + 8192)]) = 0))",
        ],
        script: "script CLEAR.3\ndivmod (b + 255) 256\ncut (b = 1)\nsplit\ncases (((b + 255) div 256) <= 1)\nlinear 1 1 h7 256 h10 1 h6\nlinear 0 -1 h7 256 h10 1 h3 -1 h6\nclose h2\nfix\nread element(update(mem,[((256 * h) + l)],a),[(k_1 + 8192)])\ncases (((256 * h) + l) = (k_1 + 8192))\nuse h13 h15\nlinear 1 1 h16 1 h1\nuse h14 h15\nat h5 k_1\nunpack h15\ncut ((0 <= k_1) and (k_1 <= (15 - b)))\nsplit\nclose h11\ncases h18\nlinear 0 1 h19 -1 h4 1 h10 1 h12\nlinear 1 1 h19 1 h4\nuse h17 h19\nend\n",
        answer: "unfinished 24",
    },
    Row {
        number: 4,
        hypotheses: &[
            "(a = 0)",
            "(1 <= b)",
            "(b <= 16)",
            "(((256 * h) + l) = (8208 - b))",
            "for_all(i1: 0..(15 - b), (element(mem,[(i1 + 8192)]) = 0))",
            "(not (((b + 255) mod 256) = 0))",
        ],
        goals: &[
            "(1 <= ((b + 255) mod 256))",
            "(((b + 255) mod 256) <= 16)",
            "(((((256 * h) + l) + 1) mod 65536) = (8208 - ((b + 255) mod 256)))",
            "for_all(i1: 0..(15 - ((b + 255) mod 256)), (element(update(mem,[((256 * h) + l)],a),[(i1 + 8192)]) = 0))",
        ],
        script: "script CLEAR.4\ndivmod (b + 255) 256\ncut (((b + 255) div 256) = 1)\nsplit\nlinear 256 -1 h7 1 h3 1 h8\nlinear 256 1 h7 1 h9 1 h2\ncut (((b + 255) mod 256) = (b - 1))\nlinear 1 -1 h7 -256 h10\nsplit\nunpack h6\ncases h12\nlinear 0 1 h13 1 h8\nlinear 1 1 h13\nsplit\nlinear 1 1 h11 1 h3\nsplit\ndivmod (((256 * h) + l) + 1) 65536\ncut (((((256 * h) + l) + 1) div 65536) = 0)\nsplit\nlinear 65536 -1 h12 1 h13 1 h4 1 h2\nlinear 65536 1 h12 1 h14 -1 h4 1 h3\nlinear 1 -1 h12 -65536 h15 1 h4 1 h11\nfix\nread element(update(mem,[((256 * h) + l)],a),[(k_1 + 8192)])\ncases (((256 * h) + l) = (k_1 + 8192))\nuse h14 h16\nlinear 1 1 h17 1 h1\nuse h15 h16\nat h5 k_1\nunpack h16\ncut ((0 <= k_1) and (k_1 <= (15 - b)))\nsplit\nclose h12\ncases h19\nlinear 0 1 h20 -1 h4 1 h13 -1 h11\nlinear 1 1 h20 1 h4\nuse h18 h20\nend\n",
        answer: "unfinished 38",
    },
];
