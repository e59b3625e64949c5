ghost use Rattle.std.specs.Prelude.{◌≡◌, ◌<◌, ◌≤◌, ◌+◌, ℕ, length, OnOk, OnErr, IfOk, IfSome, IfNone, Some, None};
ghost use Rattle.std.specs.FinMap as maps;
ghost use Rattle.std.specs.Map.Iter.{ShowsInOrder, deref_pair};
ghost use Rattle.sp_base.specs.Cells.{IsAdded, IsPlaced, Keeps, placed};
ghost use Rattle.sp_base.specs.Image.{ImageMap, IsInMemory, NextByte, NoByteFrom};

use crate::Memory;
use std::alloc::Global;
use std::collections::BTreeMap;
use std::collections::btree_map::Iter;
use std::marker::Model;

/// A memory image: bytes at some of the addresses 0 to 65,535. Contracts see the finite map from address to byte.
#[derive(Debug, Drop)]
pub struct Image {
    bytes: BTreeMap<u16, u8>,
}

impl Model for Image {
    ghost use Rattle.std.specs.FinMap as maps;
    ghost use Rattle.std.specs.Coded.{coded_ℕ};
    ghost use Rattle.sp_base.specs.Image.{ImageMap, AreCells};

    ghost Value = { ImageMap };

    ghost coded = { maps.code coded_ℕ coded_ℕ };

    ghost view = { λ image. maps.from_entries image.bytes.entries };

    ghost invariant = { λ image. AreCells image.bytes.entries };
}

impl Image {
    /// The empty image. It takes no memory.
    pub fn new(alloc: Global) -> Image
        ensures { result ≡ maps.empty }
    {
        Image {
            bytes: BTreeMap::new(alloc),
        }
    }

    /// Puts a byte at an address, in place of one that is there.
    pub fn set(&mut self, a: u16, byte: u8) -> Result<(), Memory>
        ensures ok { OnOk result (self.new ≡ maps.insert self.old a byte) }
        ensures err { OnErr result (self.new ≡ self.old) }
    {
        self.bytes.insert(a, byte)?;
        Ok(())
    }

    /// Puts a byte at an address that has none, and says whether it did.
    pub fn add(&mut self, a: u16, byte: u8) -> Result<bool, Memory>
        ensures ok { IfOk result (λ added. IsAdded added self.old a byte self.new) }
        ensures err { OnErr result (self.new ≡ self.old) }
    {
        if let Some(old) = self.bytes.insert(a, byte)? {
            self.bytes.insert(a, old)?;
            return Ok(false);
        }
        Ok(true)
    }

    /// Puts bytes at successive addresses from this one on, and says whether none of them had a byte. Where one had, or
    /// memory ran out, only those before it were put.
    pub fn place(&mut self, a: u16, bytes: &[u8]) -> Result<bool, Memory>
        requires { a + length bytes.now ≤ 65536 }
        ensures placed { IfOk result (λ new. IsPlaced new self.new (placed a bytes.now self.old)) }
        ensures keeps { Keeps self.old self.new }
    {
        let mut at = u32::from(a);
        for byte in bytes {
            if !self.add(at as u16, *byte)? {
                return Ok(false);
            }
            at += 1;
        }
        Ok(true)
    }

    /// The byte at an address, if there is one.
    pub fn get(&self, a: u16) -> Option<u8>
        ensures { result ≡ maps.get self.now a }
    {
        self.bytes.get(&a).copied()
    }

    /// How many bytes the image has, from 0 to 65,536.
    pub fn len(&self) -> u32
        ensures len { result ≡ maps.len self.now }
        ensures within { result ≤ 65536 }
        ensures in_memory { IsInMemory self.now }
    {
        self.bytes.len() as u32
    }

    /// The byte with the least address that is `from` or above, with its address.
    pub fn next(&self, from: u32) -> Option<(u16, u8)>
        ensures some { IfSome result (NextByte self.now from) }
        ensures none { IfNone result (NoByteFrom self.now from) }
    {
        let bytes = &self.bytes;
        let Ok(start) = u16::try_from(from) else {
            return None;
        };
        match bytes.range(start..).next() {
            Some((a, byte)) => Some((*a, *byte)),
            None => None,
        }
    }

    /// The bytes by rising address, each with its address.
    pub fn cells(&self) -> Iter<'_, u16, u8>
        ensures rest { result ≡ maps.entries self.now }
        ensures runs { ShowsInOrder (deref_pair {K = ℕ} {X = ℕ}) }
        ensures in_memory { IsInMemory self.now }
    {
        self.bytes.iter()
    }

    /// An image with the same bytes.
    pub fn copy(&self) -> Result<Image, Memory>
        ensures { IfOk result (λ image. image ≡ self.now) }
    {
        let bytes = self.bytes.clone()?;
        Ok(Image { bytes })
    }
}
