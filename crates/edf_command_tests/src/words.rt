//! The command that some words are.

use edf_jobs::{Job, job_of};

/// Words, and the command that they are.
const WORDS: &[(&[&str], Option<Job<'static>>)] = &[
    (
        &["edfclaim", "check", "night.edf", "export.edf", "claim.toml"],
        Some(Job::Check {
            original: "night.edf",
            export: "export.edf",
            claim: "claim.toml",
        }),
    ),
    (
        &["edfclaim", "check-parts", "night.edf", "claim.toml", "a"],
        Some(Job::CheckParts {
            original: "night.edf",
            claim: "claim.toml",
            exports: &["a"],
        }),
    ),
    (
        &["--", "check-parts", "o", "c", "a", "-", "a", ""],
        Some(Job::CheckParts {
            original: "o",
            claim: "c",
            exports: &["a", "-", "a", ""],
        }),
    ),
    (&["edfclaim", "check-parts", "o", "c"], None),
    (&["edfclaim", "check-parts", "o", "c", "a", "--", "b"], None),
    (&["edfclaim", "check-parts", "o", "c", "--", "a", "b"], None),
    (&["edfclaim", "check-parts", "o", "c", "a", "--"], None),
    (&["edfclaim", "check-parts", "--", "o", "c", "a"], None),
    (
        &[
            "edfclaim",
            "receipt",
            "night.edf",
            "export.edf",
            "claim.toml",
        ],
        Some(Job::Receipt {
            original: "night.edf",
            export: "export.edf",
            claim: "claim.toml",
        }),
    ),
    (&["edfclaim", "receipt", "o", "e"], None),
    (
        &["edfclaim", "receipt-parts", "o", "c", "a", "b"],
        Some(Job::ReceiptParts {
            original: "o",
            claim: "c",
            exports: &["a", "b"],
        }),
    ),
    (&["edfclaim", "receipt-parts", "o", "c"], None),
    (
        &["edfclaim", "draft", "night.edf", "export.edf"],
        Some(Job::Draft {
            original: "night.edf",
            export: "export.edf",
        }),
    ),
    (&["edfclaim", "draft"], None),
    (&["edfclaim", "draft", "o"], None),
    (&["edfclaim", "draft", "o", "e", "c"], None),
    (
        &["edfclaim", "draft-parts", "night.edf", "a", "b"],
        Some(Job::DraftParts {
            original: "night.edf",
            exports: &["a", "b"],
        }),
    ),
    (
        &["edfclaim", "draft-parts", "o", "a"],
        Some(Job::DraftParts {
            original: "o",
            exports: &["a"],
        }),
    ),
    (
        &[
            "edfclaim",
            "explain-parts",
            "night.edf",
            "claim.toml",
            "a",
            "b",
        ],
        Some(Job::ExplainParts {
            original: "night.edf",
            claim: "claim.toml",
            exports: &["a", "b"],
        }),
    ),
    (&["edfclaim", "explain-parts", "o", "c"], None),
    (&["edfclaim", "explain-parts", "o", "c", "--", "a"], None),
    (&["edfclaim", "draft-parts", "o"], None),
    (&["edfclaim", "draft-parts", "o", "a", "--", "b"], None),
    (&["edfclaim", "draft-parts", "--", "o", "a"], None),
    (
        &[
            "edfclaim",
            "explain",
            "night.edf",
            "export.edf",
            "claim.toml",
        ],
        Some(Job::Explain {
            original: "night.edf",
            export: "export.edf",
            claim: "claim.toml",
        }),
    ),
    (&["edfclaim", "explain", "o", "e"], None),
    (&["edfclaim", "explain", "o", "e", "c", "c"], None),
    (
        &["edfclaim", "conform", "night.edf"],
        Some(Job::Conform("night.edf")),
    ),
    (
        &["edfclaim", "show", "night.edf"],
        Some(Job::Show("night.edf")),
    ),
    (
        &["edfclaim", "notes", "night.edf"],
        Some(Job::Notes("night.edf")),
    ),
    (&["edfclaim", "vectors"], Some(Job::Vectors)),
    (&["another name", "vectors"], Some(Job::Vectors)),
    (&["edfclaim", "show", "vectors"], Some(Job::Show("vectors"))),
    (&["edfclaim", "show", ""], Some(Job::Show(""))),
    (&["edfclaim", "show", "-"], Some(Job::Show("-"))),
    (&["edfclaim"], None),
    (&[], None),
    (&["edfclaim", "show", "--", "-night.edf"], None),
    (&["edfclaim", "vectors", "--"], None),
];

#[test]
fn tells_the_commands(rt: HostRuntime) {
    for (words, job) in WORDS {
        assert_eq!(rt; job_of(words), *job, "at {words:?}");
    }
}
