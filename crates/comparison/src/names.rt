// The names of the opcodes.
pub(crate) const OPCODES: usize = 49;

pub(crate) const NAMES: [&str; OPCODES] = [
    "P set", "P get", "P mul", "P cat", "P cmp", "P conj", "P remap", "D set", "D get", "D mul",
    "D cat", "D cmp", "D conj", "D remap", "toP", "toD", "prow", "opsP", "opsH", "opsD", "opsN",
    "mulP", "mulH", "mulD", "scaleP", "orowP", "orowH", "crowP", "crowH", "nrow", "scrowP",
    "sorowP", "row", "list", "conjP", "conjD", "PtoD", "zmulP", "zopsP", "remapN", "P1 mul",
    "D1 mul", "D1 conj", "D1 toP", "P1 toD", "conjH", "HtoP", "zconjP", "zPtoD",
];
