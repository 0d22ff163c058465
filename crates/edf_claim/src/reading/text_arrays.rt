//! Arrays of texts.

ghost use Rattle.std.specs.Prelude.{◌≡◌, map, option_map, IfOk, ◌+◌};
ghost use Rattle.toml.specs.View.{view, array_view};
ghost use Rattle.edf_fields.specs.Lists.{is_one_of as is_one_of_texts};
ghost use Rattle.std.specs.Cmp.Lexicographic.{slice_cmp};
ghost use Rattle.std.specs.List.Sorted.{IsSorted};
ghost use Rattle.std.specs.Ordering.{nat_cmp};
ghost use Rattle.edf_claim.specs.KeepsReading.{IsIndex};
ghost use Rattle.edf_claim.specs.Reading.{texts_of as texts_of_items, distinct_texts as distinct_texts_of};

use edf_fields::{SignalLabel, are_distinct};
use std::alloc::{AllocError, Global};
use std::cmp::Ordering;
use toml::Value;
use toml::value::Array;

/// The texts of an array, where each item is one; none of them is copied.
fn texts_of(alloc: Global, array: &Array) -> Result<Option<Vec<&str>>, AllocError>
    ensures { IfOk result (λ r. option_map (λ v. map (λ t. t.now) v.items) r ≡
        texts_of_items (array_view array.now)) }
{
    let mut found = Vec::new(alloc);
    for value in array {
        match value.as_str() {
            Some(text) => found.push(text)?,
            None => return Ok(None),
        }
    }
    Ok(Some(found))
}

/// Copies of the texts.
pub(crate) fn copies_of(alloc: Global, texts: &[&str]) -> Result<Vec<Vec<u8>>, AllocError>
    ensures { IfOk result (λ v. map (λ t. t.items) v.items ≡ map (λ t. t.now) texts.now) }
{
    let mut copies = Vec::with_capacity(alloc, texts.len())?;
    for text in texts {
        copies.push(Vec::from_slice(alloc, text.as_bytes())?)?;
    }
    Ok(copies)
}

/// Copies of texts that are copies themselves.
fn same_copies(alloc: Global, texts: &[Vec<u8>]) -> Result<Vec<Vec<u8>>, AllocError>
    ensures { IfOk result (λ v. map (λ t. t.items) v.items ≡ map (λ t. t.items) texts.now) }
{
    let mut copies = Vec::with_capacity(alloc, texts.len())?;
    for text in texts {
        copies.push(Vec::from_slice(alloc, text)?)?;
    }
    Ok(copies)
}

/// Whether these are the bytes of one of the labels.
pub(crate) fn is_one_of(labels: &[SignalLabel], text: &[u8]) -> bool
    ensures { result ≡ is_one_of_texts labels.now text.now }
{
    for other in labels {
        if other.text() == text {
            return true;
        }
    }
    false
}

/// Copies of the texts, in the order of their bytes.
pub(crate) fn sorted_copies(alloc: Global, texts: &[Vec<u8>]) -> Result<Vec<Vec<u8>>, AllocError>
    ensures { IfOk result (λ v. IsIndex (map (λ t. t.items) texts.now) v.items) }
{
    let mut sorted = same_copies(alloc, texts)?;
    sorted.sort_unstable();
    Ok(sorted)
}

/// Whether the text is one of these, which are in the order of their bytes.
pub(crate) fn is_found(sorted: &[Vec<u8>], text: &[u8]) -> bool
    requires { IsSorted (λ x y. slice_cmp nat_cmp x.items y.items) sorted.now }
    ensures { result ≡ is_one_of_texts (map (λ t. t.items) sorted.now) text.now }
{
    match sorted.binary_search_by(
        |other: &Vec<u8>| -> Ordering
            ensures { result ≡ slice_cmp nat_cmp other.now.items text.entry.now }
        { other.as_slice().cmp(text) },
    ) {
        Ok(_) => true,
        Err(_) => false,
    }
}

/// Whether the text stands among these.
pub(crate) fn stands_in(texts: &[&str], text: &str) -> bool
    ensures { result ≡ is_one_of_texts (map (λ other. other.now) texts.now) text.now }
{
    for other in texts {
        if other.as_bytes() == text.as_bytes() {
            return true;
        }
    }
    false
}

/// The bytes of the texts; none of them is copied.
fn bytes_of<'a>(alloc: Global, texts: &[&'a str]) -> Result<Vec<&'a [u8]>, AllocError>
    ensures { IfOk result (λ v. map (λ t. t.now) v.items ≡ map (λ t. t.now) texts.now) }
{
    let mut list = Vec::with_capacity(alloc, texts.len())?;
    for text in texts {
        list.push(text.as_bytes())?;
    }
    Ok(list)
}

/// The texts of a value that is an array of distinct texts; none of them is copied.
pub(crate) fn distinct_texts(alloc: Global, value: &Value) -> Result<Option<Vec<&str>>, AllocError>
    ensures { IfOk result (λ r. option_map (λ v. map (λ t. t.now) v.items) r ≡
        distinct_texts_of (view value.now)) }
{
    let Some(array) = value.as_array() else {
        return Ok(None);
    };
    let Some(texts) = texts_of(alloc, array)? else {
        return Ok(None);
    };
    let mut list = bytes_of(alloc, &texts)?;
    if !are_distinct(&mut list) {
        return Ok(None);
    }
    Ok(Some(texts))
}
