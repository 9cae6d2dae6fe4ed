//! Indexes that are made of bytes which come from anywhere.
ghost use Rattle.std.specs.Prelude.{◌≡◌, ◌≤◌, ℕ, List as Items, IfOk, MatchResult};
ghost use Rattle.spg_io.specs.Held.{Holds, Stays};
ghost use Rattle.spg_verify.specs.Refusals.{IfBad, HasImageCause};
ghost use Rattle.spg_verify.specs.Meta.{IsOfClass};
ghost use Rattle.spg_verify.specs.Verdict.{IsTopOf, FailsFirst, IsVerified};
ghost use Rattle.spg_image.specs.Classes.{code_of, OfClass};
ghost use Rattle.spg_image.specs.Verifying.{IsImageOf, IsBadImage, IsLoadOf, IsMade};

use crate::class::{ImageClass, class_in};
use spg_clauses::{Fault, Reason};
use spg_core::{Bare, State};
use spg_io::Images;
use spg_kd::Kd;
use spg_opclass::{OpClass, With};
use spg_quad::Quad;
use spg_radix::Radix;
use spg_range::Ranges;
use spg_verdict::survey_links;
use spg_verify::{ImageRefused, Verified, read_index, read_meta, verify_class};
use std::alloc::Global;

/// The index of a class whose image stands under a name, of at most `limit` pages, or as many as the
/// image has where these are more. `BadImage` exactly where a clause fails, with the first that does.
pub fn load<O: OpClass, M: Images>(
    alloc: Global,
    class: O,
    images: &mut M,
    name: &str,
    limit: u32,
) -> Result<State<O>, ImageRefused>
    requires from { 4 ≤ limit }
    requires to { limit ≤ 131072 }
    ensures value { Holds (M.held images.old) name.now (λ held. MatchResult result (λ state. IsLoadOf O.meaning O.code_number limit held state) (λ e. IfBad e (λ f. FailsFirst O.meaning O.code_number limit held f))) }
    ensures made { IfOk result (λ state. IsMade O.meaning O.code_number limit (M.held images.old) name.now state) }
    ensures stays { Stays (M.held images.old) (M.held images.new) }
    ensures cause { HasImageCause (M.faults images.old) (M.faults images.new) result }
{
    match read_index(alloc, class, images, name, limit) {
        Err(refused) => Err(refused),
        Ok(table) => match survey_links(alloc, class, &table)? {
            Err(Fault { block, reason }) => Err(ImageRefused::BadImage { block, reason }),
            Ok(listed) => {
                let bare = Bare::adopt(alloc, table, &listed)?;
                Ok(State::whole(class, bare))
            }
        },
    }
}

/// Whether the bytes under a name, whose meta page this is, are an image of an index of this class.
fn verify_as<M: Images>(
    alloc: Global,
    class: ImageClass,
    images: &mut M,
    name: &str,
    meta_page: &[u8; 8192],
    len: u64,
) -> Result<Verified, ImageRefused>
    requires { IsOfClass (code_of class) meta_page.now }
    ensures value { Holds (M.held images.old) name.now (λ held. (bytes : Items ℕ) → IsTopOf held len meta_page.now bytes → OfClass (λ Key Recon Cond m code. MatchResult result (λ v. IsVerified m code held v) (λ e. IfBad e (λ f. FailsFirst m code 4 held f))) class) }
    ensures stays { Stays (M.held images.old) (M.held images.new) }
    ensures cause { HasImageCause (M.faults images.old) (M.faults images.new) result }
{
    match class {
        ImageClass::Quad => verify_class(alloc, Quad, images, name, meta_page, len),
        ImageClass::Kd => verify_class(alloc, Kd, images, name, meta_page, len),
        ImageClass::Radix => verify_class(alloc, Radix, images, name, meta_page, len),
        ImageClass::Range => verify_class(alloc, Ranges, images, name, meta_page, len),
        ImageClass::QuadValue => {
            verify_class(alloc, With { inner: Quad }, images, name, meta_page, len)
        }
        ImageClass::KdValue => {
            verify_class(alloc, With { inner: Kd }, images, name, meta_page, len)
        }
        ImageClass::RadixValue => {
            verify_class(alloc, With { inner: Radix }, images, name, meta_page, len)
        }
    }
}

/// Whether the bytes under a name are an image of an index. `BadImage` exactly where a clause fails,
/// with the first that does.
pub fn verify<M: Images>(
    alloc: Global,
    images: &mut M,
    name: &str,
) -> Result<Verified, ImageRefused>
    ensures value { Holds (M.held images.old) name.now (λ held. MatchResult result (λ v. IsImageOf held v) (λ e. IfBad e (λ f. IsBadImage held f))) }
    ensures stays { Stays (M.held images.old) (M.held images.new) }
    ensures cause { HasImageCause (M.faults images.old) (M.faults images.new) result }
{
    let mut meta_page = [0; 8192];
    let len = read_meta(images, name, &mut meta_page)?;
    match class_in(&meta_page) {
        None => Err(ImageRefused::BadImage {
            block: 0,
            reason: Reason::Class,
        }),
        Some(class) => verify_as(alloc, class, images, name, &meta_page, len),
    }
}
