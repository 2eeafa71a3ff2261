//! Keys of links.
ghost use Rattle.std.specs.Prelude.{◌≡◌, ◌↔◌, IsTrue, IfOk};
ghost use Rattle.md5.specs.Md5.{md5};
ghost use Rattle.icc_model.specs.Direct.{can_receive};
ghost use Rattle.link_build.specs.Key.{LinkKeyValue, mark_of};
ghost use Rattle.link_build.specs.KeyLaws.{AreOne};

use icc_model::{Intent, Profile};
use press_fault::Mem;
use std::alloc::Global;
use std::marker::Model;
use std::sync::Arc;

/// What a link is made for: the profiles that colours come from and go to, and the rendering
/// intent. The target is able to receive at it.
#[derive(Drop)]
pub struct LinkKey {
    source: Arc<Profile>,
    target: Arc<Profile>,
    intent: Intent,
    source_digest: [u8; 16],
    target_digest: [u8; 16],
}

impl Model for LinkKey {
    ghost use Rattle.link_build.specs.Key.{LinkKeyValue};
    ghost use Rattle.link_build.specs.Code.Digests.{IsKeyWith};

    ghost Value = { LinkKeyValue };

    ghost view = { λ k. record { source = k.source.value; target = k.target.value; intent = k.intent } };

    ghost invariant = { λ k. IsKeyWith k.source_digest k.target_digest
        (record { source = k.source.value; target = k.target.value; intent = k.intent }) };
}

impl LinkKey {
    /// The key of two profiles and an intent.
    pub fn new(source: Arc<Profile>, target: Arc<Profile>, intent: Intent) -> LinkKey
        requires { IsTrue (can_receive target.value intent) }
        ensures { result ≡ record { source = source.value; target = target.value; intent = intent } }
    {
        LinkKey {
            source_digest: source.digest(),
            target_digest: target.digest(),
            source,
            target,
            intent,
        }
    }

    /// The profile that colours come from.
    pub fn source(&self) -> &Profile
        ensures { result.now ≡ self.now.source }
    {
        &self.source
    }

    /// The profile that colours go to. It can receive at the intent.
    pub fn target(&self) -> &Profile
        ensures value { result.now ≡ self.now.target }
        ensures receives { IsTrue (can_receive self.now.target self.now.intent) }
    {
        &self.target
    }

    /// The rendering intent.
    pub fn intent(&self) -> Intent
        ensures { result ≡ self.now.intent }
    {
        self.intent
    }

    /// The same key: both profiles are shared.
    pub(crate) fn copy(&self) -> Mem<LinkKey>
        ensures { IfOk result (λ copy. copy ≡ self.now) }
    {
        Ok(LinkKey {
            source: Arc::try_clone(&self.source)?,
            target: Arc::try_clone(&self.target)?,
            intent: self.intent,
            source_digest: self.source_digest,
            target_digest: self.target_digest,
        })
    }

    /// Whether the intents and the bytes of both profiles are the same.
    pub(crate) fn is_same(&self, other: &LinkKey) -> bool
        ensures { IsTrue result ↔ (mark_of self.now ≡ mark_of other.now) }
    {
        self.is_one(other)
    }

    /// The same of their parts.
    fn is_one(&self, other: &LinkKey) -> bool
        ensures { IsTrue result ↔ AreOne self.now other.now }
    {
        if self.intent != other.intent {
            return false;
        }
        if !have_same_bytes(
            &self.source,
            self.source_digest,
            &other.source,
            other.source_digest,
        ) {
            return false;
        }
        have_same_bytes(
            &self.target,
            self.target_digest,
            &other.target,
            other.target_digest,
        )
    }
}

/// Whether two profiles have the same bytes. Bytes are compared only where their digests agree.
fn have_same_bytes(a: &Profile, a_digest: [u8; 16], b: &Profile, b_digest: [u8; 16]) -> bool
    requires a { a_digest ≡ md5 a.now.bytes }
    requires b { b_digest ≡ md5 b.now.bytes }
    ensures { IsTrue result ↔ (a.now.bytes ≡ b.now.bytes) }
{
    if a_digest != b_digest {
        return false;
    }
    a.bytes() == b.bytes()
}
