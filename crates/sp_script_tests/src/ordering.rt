//! Scripts for `(b~ < (c~ + 1))` under `(b~ <= c~)`, the condition of a routine that copies B to A, each with its answer.

/// Scripts that show it, and what breaks them.
pub static ANSWERS: [(&str, &str); 22] = [
    ("script ORD.1\nlinear 1 1 h1\nend\n", "proved"),
    ("script ORD.1\nend\n", "unfinished 2"),
    ("script ORD.1\n-- a comment\n\nend\n", "unfinished 4"),
    ("script ORD.1\nlinear 1 2 h1\nend\n", "step 2 linear"),
    (
        "script ORD.1\ncut ((1 <= a~) -> (0 <= a~))\nintro\nlinear 1 1 h2\nlinear 1 1 h1\nend\n",
        "proved",
    ),
    (
        "script ORD.1\ncut (false or (1 = 1))\nside right\nsimp\nlinear 1 1 h1\nend\n",
        "proved",
    ),
    (
        "script ORD.1\ncut for_some(i1: 0..1, (i1 = 1))\ngive 1\nsimp\nlinear 1 1 h1\nend\n",
        "proved",
    ),
    (
        "script ORD.1\ncut (for_some(i1: 0..1, (a~ = i1)) -> (a~ <= 1))\nintro\npick h2\nlinear 1 1 h4 1 h5\nlinear 1 1 h1\nend\n",
        "proved",
    ),
    (
        "script ORD.1\ncut for_all(i1: 0..3, (0 <= i1))\ninduct\nsimp\nlinear 1 1 h4\nlinear 1 1 h1\nend\n",
        "proved",
    ),
    (
        "script ORD.1\ncut ((a~ = 1) -> (a~ <= 1))\nintro\nrewrite h2\nsimp\nlinear 1 1 h1\nend\n",
        "proved",
    ),
    (
        "script ORD.1\ncut (a~ <= 255)\nrange a~\nclose h3\nlinear 1 1 h1\nend\n",
        "proved",
    ),
    (
        "script ORD.1\ncut (element(mem~,[0]) = 120)\nrom mem~ 0\nclose h2\nlinear 1 1 h1\nend\n",
        "proved",
    ),
    ("script ORD.1\nbits a~\nlinear 1 1 h1\nend\n", "proved"),
    (
        "script ORD.1\ncut (bit(3,band(a~,b~)) = (bit(3,a~) * bit(3,b~)))\nbitof 3 band(a~,b~)\nclose h2\nlinear 1 1 h1\nend\n",
        "proved",
    ),
    (
        "script ORD.1\ncut ((a~ = 0) -> (if((a~ = 0),1,2) = 1))\nchoose if((a~ = 0),1,2)\nclose h2\nlinear 1 1 h1\nend\n",
        "proved",
    ),
    (
        "script ORD.1\ncut (0 <= (288230376151711744 * 288230376151711744))\nlinear 1 0 h1\nlinear 1 1 h1\nend\n",
        "proved",
    ),
    (
        "script ORD.1\ncut (0 <= (4611686018427387904 * 4611686018427387904))\nlinear 1 0 h1\nlinear 1 1 h1\nend\n",
        "step 3 linear",
    ),
    ("script ORD.1\ncut true\nsimp\nend\n", "unfinished 4"),
    (
        "script ORD.1\ncut true\nlinear 1 1 h1\nsimp\nend\n",
        "step 3 linear",
    ),
    (
        "script ORD.1\ncut true\nsimp\nlinear 1 1 h1\nend\n",
        "proved",
    ),
    (
        "script ORD.1\nlinear 1 1 h1\nlinear 1 1 h1\nend\n",
        "step 3 linear",
    ),
    (
        "script ORD.1\n-- a comment\n\n\tlinear 1  1 h1 \n\nend",
        "proved",
    ),
];

/// Each rule where it doesn't apply.
pub static STOPPED: [(&str, &str); 37] = [
    ("script ORD.1\nclose h1\nend\n", "step 2 close"),
    ("script ORD.1\nclose h2\nend\n", "step 2 close"),
    ("script ORD.1\nsimp h2\nend\n", "step 2 simp"),
    ("script ORD.1\nsplit\nend\n", "step 2 split"),
    ("script ORD.1\nintro\nend\n", "step 2 intro"),
    ("script ORD.1\nside left\nend\n", "step 2 side"),
    ("script ORD.1\nside right\nend\n", "step 2 side"),
    ("script ORD.1\nunpack h1\nend\n", "step 2 unpack"),
    ("script ORD.1\nuse h1 h1\nend\n", "step 2 use"),
    ("script ORD.1\ncases h1\nend\n", "step 2 cases"),
    ("script ORD.1\ncases h2\nend\n", "step 2 cases"),
    (
        "script ORD.1\nlinear 1 1 h1\ncases true\nend\n",
        "step 3 cases",
    ),
    ("script ORD.1\nlinear 1 1 h1\ncut true\nend\n", "step 3 cut"),
    ("script ORD.1\nfix\nend\n", "step 2 fix"),
    ("script ORD.1\nat h1 1\nend\n", "step 2 at"),
    ("script ORD.1\ngive 1\nend\n", "step 2 give"),
    ("script ORD.1\npick h1\nend\n", "step 2 pick"),
    ("script ORD.1\ninduct\nend\n", "step 2 induct"),
    ("script ORD.1\nrewrite h1\nend\n", "step 2 rewrite"),
    ("script ORD.1\nrewrite h1 h1 back\nend\n", "step 2 rewrite"),
    ("script ORD.1\nlinear 0 1 h1\nend\n", "step 2 linear"),
    ("script ORD.1\nlinear 1 1 h2\nend\n", "step 2 linear"),
    ("script ORD.1\ndivmod b~ 0\nend\n", "step 2 divmod"),
    ("script ORD.1\ndivmod b~ -1\nend\n", "step 2 divmod"),
    ("script ORD.1\nrange k_1\nend\n", "step 2 range"),
    ("script ORD.1\nread b~\nend\n", "step 2 read"),
    ("script ORD.1\nrom mem~ 2\nend\n", "step 2 rom"),
    ("script ORD.1\nrom mem 0\nend\n", "step 2 rom"),
    ("script ORD.1\nframe mem 0\nend\n", "step 2 frame"),
    ("script ORD.1\nlinear 1 1 h1\nbits a~\nend\n", "step 3 bits"),
    ("script ORD.1\nbitof 8 band(a~,b~)\nend\n", "step 2 bitof"),
    ("script ORD.1\nbitof -1 band(a~,b~)\nend\n", "step 2 bitof"),
    ("script ORD.1\nbitof 0 (a~ + b~)\nend\n", "step 2 bitof"),
    ("script ORD.1\nchoose a~\nend\n", "step 2 choose"),
    ("script ORD.1\nempty a~\nend\n", "step 2 empty"),
    ("script ORD.1\nlast a~\nend\n", "step 2 last"),
    ("script ORD.1\nover a~\nend\n", "step 2 over"),
];
