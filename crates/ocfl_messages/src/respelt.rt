//! Files that are there under another spelling of their names: each is a finding of the file that
//! is missing, and one of the file that is in no inventory.
ghost use Rattle.std.specs.Prelude.{◌≡◌, ◌++◌, ◌∷◌, [], IfOk, OnOk, encode_utf8_all, chars, map, string_bytes};
ghost use Rattle.std.specs.List.{list_any};
ghost use Rattle.unicode_normalization.specs.Forms.{nfc};
ghost use Rattle.ocfl_messages.specs.Finding.{finding_of};
ghost use Rattle.ocfl_messages.specs.Grouped.{alone_of, count_side as count_of_side, form_of, is_alone as are_alone, is_at as are_at, is_beside as are_beside, is_counted_with, is_lost as is_of_lost, is_missed as is_of_missed, is_paired as are_paired, is_side as is_of_side, is_spelt as are_spelt, is_stray as is_of_stray, one_if, respelt_of, without_beside};

use crate::finding::Finding;
use crate::grouped::is_with;
use crate::known::{is_code, is_place};
use crate::wording::{is_missing, split};
use ocfl_report::Code;
use ocfl_tree::{Place, is_text};
use std::alloc::{AllocError, Global};
use unicode_normalization::to_nfc;

/// Whether a finding says that a file of an inventory is missing.
fn is_lost(finding: &Finding) -> bool
    ensures { result ≡ is_of_lost (finding_of finding.now) }
{
    is_code(finding.line.code, Code::E092) && is_missing(split(finding.line.detail.as_bytes()))
}

/// Whether a finding says that a file is in no inventory.
fn is_stray(finding: &Finding) -> bool
    ensures { result ≡ is_of_stray (finding_of finding.now) }
{
    is_code(finding.line.code, Code::E023)
}

/// Whether a finding is of this side of pairs.
fn is_side(lost: bool, finding: &Finding) -> bool
    ensures { result ≡ is_of_side lost (finding_of finding.now) }
{
    if lost {
        is_lost(finding)
    } else {
        is_stray(finding)
    }
}

/// A path in normal form C.
fn form(alloc: Global, place: &Place) -> Result<String, AllocError>
    ensures { IfOk result (λ text. string_bytes text ≡ form_of place.now) }
{
    to_nfc(alloc, place.path())
}

/// Whether two findings of one group have the same path, but for its spelling.
fn is_spelt(alloc: Global, one: &Finding, other: &Finding) -> Result<bool, AllocError>
    ensures { IfOk result (λ is. is ≡ are_spelt (finding_of one.now) (finding_of other.now)) }
{
    if !is_with(one, other) {
        return Ok(false);
    }
    let path = form(alloc, &one.line.place)?;
    let other = form(alloc, &other.line.place)?;
    Ok(is_text(path.as_str(), other.as_str()))
}

/// Whether a finding is of this side, and of the path of another one, but for its spelling.
fn is_counted(alloc: Global, lost: bool, one: &Finding, other: &Finding) -> Result<bool, AllocError>
    ensures { IfOk result (λ is.
        is ≡ is_counted_with lost (finding_of one.now) (finding_of other.now)) }
{
    if !is_side(lost, other) {
        return Ok(false);
    }
    is_spelt(alloc, one, other)
}

/// How many findings of this side are of the path of one, but for its spelling.
fn count_side(
    alloc: Global,
    lost: bool,
    one: &Finding,
    findings: &[Finding],
) -> Result<usize, AllocError>
    ensures { IfOk result
        (λ count. count ≡ count_of_side lost (finding_of one.now) (map finding_of findings.now)) }
{
    let mut count = 0;
    for finding in findings {
        if is_counted(alloc, lost, one, finding)? {
            count += 1;
        }
    }
    Ok(count)
}

/// Whether a finding, behind those that were seen of all, is on this side of a pair.
fn is_paired(
    alloc: Global,
    lost: bool,
    all: &[Finding],
    seen: &[Finding],
    finding: &Finding,
) -> Result<bool, AllocError>
    ensures { IfOk result (λ is. is ≡ are_paired lost (map finding_of all.now)
        (map finding_of seen.now) (finding_of finding.now)) }
{
    if !is_side(lost, finding) {
        return Ok(false);
    }
    let before = count_side(alloc, lost, finding, seen)?;
    Ok(before < count_side(alloc, !lost, finding, all)?)
}

/// Whether a finding is in no pair.
fn is_alone(
    alloc: Global,
    all: &[Finding],
    seen: &[Finding],
    finding: &Finding,
) -> Result<bool, AllocError>
    ensures { IfOk result (λ is. is ≡ are_alone (map finding_of all.now)
        (map finding_of seen.now) (finding_of finding.now)) }
{
    if is_paired(alloc, true, all, seen, finding)? {
        return Ok(false);
    }
    Ok(!is_paired(alloc, false, all, seen, finding)?)
}

/// Takes a finding if that is asked for.
fn add_if(is: bool, finding: &Finding, taken: &mut Vec<Finding>) -> Result<(), AllocError>
    ensures { OnOk result (map finding_of taken.new.items
        ≡ map finding_of taken.old.items ++ one_if is (finding_of finding.now)) }
{
    if is {
        taken.push(finding.try_clone()?)?;
    }
    Ok(())
}

/// The findings that are in no pair.
pub(crate) fn find_alone(alloc: Global, all: &[Finding]) -> Result<Vec<Finding>, AllocError>
    ensures { IfOk result
        (λ alone. map finding_of alone.items ≡ alone_of (map finding_of all.now)) }
{
    let mut alone = Vec::new(alloc);
    for index in 0..all.len() {
        let (seen, finding) = (&all[..index], &all[index]);
        let is = is_alone(alloc, all, seen, finding)?;
        add_if(is, finding, &mut alone)?;
    }
    Ok(alone)
}

/// Of each pair the finding of the file that is missing.
pub(crate) fn find_respelt(alloc: Global, all: &[Finding]) -> Result<Vec<Finding>, AllocError>
    ensures { IfOk result
        (λ respelt. map finding_of respelt.items ≡ respelt_of (map finding_of all.now)) }
{
    let mut respelt = Vec::new(alloc);
    for index in 0..all.len() {
        let (seen, finding) = (&all[..index], &all[index]);
        let is = is_paired(alloc, true, all, seen, finding)?;
        add_if(is, finding, &mut respelt)?;
    }
    Ok(respelt)
}

/// Whether a finding says that a file of the fixity block is missing.
fn is_missed(finding: &Finding) -> bool
    ensures { result ≡ is_of_missed (finding_of finding.now) }
{
    is_code(finding.line.code, Code::E093) && is_missing(split(finding.line.detail.as_bytes()))
}

/// Whether two findings of one group are of the same place.
fn is_at(one: &Finding, other: &Finding) -> bool
    ensures { result ≡ are_at (finding_of one.now) (finding_of other.now) }
{
    is_with(one, other) && is_place(&one.line.place, &other.line.place)
}

/// Whether one of some findings is of the group and the place of another one.
fn any_at(one: &Finding, findings: &[Finding]) -> bool
    ensures { result ≡ list_any (λ g. are_at (finding_of one.now) (finding_of g)) findings.now }
{
    for finding in findings {
        if is_at(one, finding) {
            return true;
        }
    }
    false
}

/// Whether a finding is what the fixity block says of the missing file of one of these pairs.
fn is_beside(respelt: &[Finding], finding: &Finding) -> bool
    ensures { result ≡ are_beside (map finding_of respelt.now) (finding_of finding.now) }
{
    is_missed(finding) && any_at(finding, respelt)
}

/// Takes a finding unless it is beside a pair.
fn add_kept(
    respelt: &[Finding],
    finding: &Finding,
    kept: &mut Vec<Finding>,
) -> Result<(), AllocError>
    ensures { OnOk result (map finding_of kept.new.items ≡ map finding_of kept.old.items
        ++ without_beside (map finding_of respelt.now) (finding_of finding.now ∷ [])) }
{
    add_if(!is_beside(respelt, finding), finding, kept)
}

/// The findings without what the fixity block says of the missing files of these pairs.
pub(crate) fn find_kept(
    alloc: Global,
    respelt: &[Finding],
    all: &[Finding],
) -> Result<Vec<Finding>, AllocError>
    ensures { IfOk result (λ kept. map finding_of kept.items
        ≡ without_beside (map finding_of respelt.now) (map finding_of all.now)) }
{
    let mut kept = Vec::new(alloc);
    for finding in all {
        add_kept(respelt, finding, &mut kept)?;
    }
    Ok(kept)
}
