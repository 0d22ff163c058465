//! The texts of annotations that stand by themselves.

use edf_stream::OwnText;
use std::alloc::AllocError;

/// Texts in their order: of no byte, of 5, twice of 16, and of 17.
const TEXTS: &[&str] = &[
    "",
    "Apnea",
    "Sleep stage N \u{e9}",
    "Sleep stage N3 !",
    "Sleep stage N3 !!",
];

#[test]
fn gives_the_texts_again_and_orders_them(rt: HostRuntime) -> Result<(), AllocError> {
    for (i, text) in TEXTS.iter().enumerate() {
        let own = OwnText::new(rt.alloc(), text)?;
        assert_eq!(rt; own.as_str(), *text);
        for (j, text) in TEXTS.iter().enumerate() {
            let other = OwnText::new(rt.alloc(), text)?;
            let found = (own.cmp(&other), own == other);
            assert_eq!(rt; found, (i.cmp(&j), i == j));
        }
    }
    Ok(())
}
