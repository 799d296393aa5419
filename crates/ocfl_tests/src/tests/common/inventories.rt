//! Inventories that stop whoever reads them, each with a name.

/// Texts that are no object in JSON.
pub const NO_OBJECTS: [(&str, &str); 7] = [
    ("an array", "[]"),
    ("no JSON", "abc"),
    ("no byte", ""),
    ("an object without an end", r#"{"digestAlgorithm":"#),
    ("a number too large", r#"{"a":1e999}"#),
    ("half of a pair", r#"{"a":"\ud800"}"#),
    ("two objects", "{} {}"),
];

/// The code and the detail of a line, and the members of inventories that stop with it.
pub type Stopping = (
    &'static str,
    &'static str,
    &'static [(&'static str, &'static str)],
);

/// Inventories that are objects in JSON.
pub const STOPPING: [Stopping; 12] = [
    (
        "E036",
        "digestAlgorithm",
        &[("no algorithm", r#""manifest":{},"fixity":{}"#)],
    ),
    (
        "S03",
        "digestAlgorithm",
        &[(
            "an algorithm that is a number",
            r#""digestAlgorithm":7,"manifest":{},"fixity":{}"#,
        )],
    ),
    (
        "E025",
        "SHA256",
        &[(
            "an algorithm in capitals",
            r#""digestAlgorithm":"SHA256","manifest":{},"fixity":{}"#,
        )],
    ),
    (
        "E025",
        "md5",
        &[(
            "md5",
            r#""digestAlgorithm":"md5","manifest":{},"fixity":{}"#,
        )],
    ),
    (
        "E025",
        "sha512/256",
        &[(
            "sha512/256",
            r#""digestAlgorithm":"sha512/256","manifest":{},"fixity":{}"#,
        )],
    ),
    (
        "S03",
        "contentDirectory",
        &[
            (
                "a content directory that is a number",
                r#""digestAlgorithm":"sha256","contentDirectory":7,"manifest":{}"#,
            ),
            (
                "an empty content directory",
                r#""digestAlgorithm":"sha256","contentDirectory":"","manifest":{}"#,
            ),
        ],
    ),
    (
        "E017",
        "a/b",
        &[(
            "a content directory of two names",
            r#""digestAlgorithm":"sha256","contentDirectory":"a/b","manifest":{}"#,
        )],
    ),
    (
        "E018",
        ".",
        &[(
            "a content directory of one dot",
            r#""digestAlgorithm":"sha256","contentDirectory":".","manifest":{}"#,
        )],
    ),
    (
        "E018",
        "..",
        &[
            (
                "a content directory of two dots",
                r#""digestAlgorithm":"sha256","contentDirectory":"..","manifest":{}"#,
            ),
            // It is looked at before the manifest, and this before the fixity block.
            (
                "a bad content directory and no manifest",
                r#""digestAlgorithm":"sha256","contentDirectory":"..""#,
            ),
        ],
    ),
    (
        "E041",
        "manifest",
        &[(
            "no manifest and a bad fixity block",
            r#""digestAlgorithm":"sha256","fixity":7"#,
        )],
    ),
    (
        "S03",
        "manifest",
        &[
            (
                "a manifest that is an array",
                r#""digestAlgorithm":"sha256","manifest":[],"fixity":{}"#,
            ),
            (
                "a digest with a text",
                r#""digestAlgorithm":"sha256","manifest":{"ABC_SHA256":"v1/content/f"},"fixity":{}"#,
            ),
            (
                "a path that is a number",
                r#""digestAlgorithm":"sha256","manifest":{"ABC_SHA256":[7]},"fixity":{}"#,
            ),
        ],
    ),
    (
        "S03",
        "fixity",
        &[
            (
                "a fixity block that is an array",
                r#""digestAlgorithm":"sha256","manifest":{},"fixity":[]"#,
            ),
            (
                "a fixity algorithm that is a number",
                r#""digestAlgorithm":"sha256","manifest":{},"fixity":{"md5":7}"#,
            ),
            (
                "a path in fixity that is a number",
                r#""digestAlgorithm":"sha256","manifest":{},"fixity":{"md5":{"ABC_MD5":["v1/content/f",7]}}"#,
            ),
            (
                "sha512/256 that is a number",
                r#""digestAlgorithm":"sha256","manifest":{},"fixity":{"sha512/256":7}"#,
            ),
        ],
    ),
];
