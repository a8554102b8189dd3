// A picture and the level of each of its pixels.
ghost use Rattle.std.specs.Prelude.{◌≡◌, ℕ, ◌+◌, ◌*◌, ◌<◌, ◌≤◌, ◌^◌, length, replicate, slice_index, slice_set, IfOk};
ghost use Rattle.whole_affine.specs.Parts.{LiesIn};
ghost use Rattle.whole_affine.specs.Offsets.{offset_ahead, place_ahead};
ghost use Rattle.scale_pick.specs.Picture.{place, IsFilled};
ghost use Rattle.scale_pick.specs.Runs.{IsRunOf, ShowsRun};
ghost use Rattle.scale_pick.specs.Shade.{shown};

use crate::run::{Run, fill, show};
use crate::shade::Shades;
use std::alloc::{AllocError, Global};
use std::marker::Model;
use whole_affine::OffsetWalk;

/// Want of memory.
pub type Memory = AllocError;

/// A byte and a mask for each pixel, row by row from row 0. A mask is a level, or 255 for none.
#[derive(Drop)]
pub struct Picture {
    width: u32,
    height: u32,
    values: Vec<u8>,
    mask: Vec<u8>,
}

impl Model for Picture {
    ghost use Rattle.scale_pick.specs.Picture.{Pixels, IsFilled};

    ghost Value = { Pixels };

    ghost view = { λ p. record { width = p.width; height = p.height; values = p.values.items; mask = p.mask.items } };

    ghost invariant = { λ p. IsFilled (record { width = p.width; height = p.height; values = p.values.items; mask = p.mask.items }) };
}

impl Picture {
    /// A picture without a pixel painted: values 0, masks 255.
    pub fn new(alloc: Global, width: u32, height: u32) -> Result<Picture, Memory>
        requires width { (0 < width) × (width ≤ 4096) }
        requires height { (0 < height) × (height ≤ 4096) }
        ensures { IfOk result (λ p. p ≡ record { width = width; height = height; values = replicate (width * height) 0; mask = replicate (width * height) 255 }) }
    {
        let size = (width * height) as usize;
        let values = vec![in alloc; 0; size]?;
        let mask = vec![in alloc; 255; size]?;
        Ok(Picture {
            width,
            height,
            values,
            mask,
        })
    }

    /// The bytes of the pixels, row by row.
    pub fn values(&self) -> &[u8]
        ensures values { result.now ≡ self.now.values }
        ensures filled { IsFilled self.now }
    {
        self.values.as_slice()
    }

    /// The level of each pixel, row by row.
    pub fn mask(&self) -> &[u8]
        ensures mask { result.now ≡ self.now.mask }
        ensures filled { IsFilled self.now }
    {
        self.mask.as_slice()
    }

    /// How many pixels a row has.
    pub fn width(&self) -> u32
        ensures width { result ≡ self.now.width }
        ensures filled { IsFilled self.now }
    {
        self.width
    }

    /// How many rows there are.
    pub fn height(&self) -> u32
        ensures height { result ≡ self.now.height }
        ensures filled { IsFilled self.now }
    {
        self.height
    }

    /// Sets a pixel and its mask.
    pub fn set(&mut self, x: u32, y: u32, value: u8, mask: u8)
        requires column { x < self.old.width }
        requires row { y < self.old.height }
        ensures filled { IsFilled self.old }
        ensures set { self.new ≡ record self.old { values = slice_set self.old.values (place self.old.width x y) value; mask = slice_set self.old.mask (place self.old.width x y) mask } }
    {
        let at = y as usize * self.width as usize + x as usize;
        self.values[at] = value;
        self.mask[at] = mask;
    }

    /// Sets the pixel at a place, which is counted row by row, and its mask: for a walk over all pixels in their order.
    pub fn set_at(&mut self, at: usize, value: u8, mask: u8)
        requires { at < self.old.width * self.old.height }
        ensures filled { IsFilled self.old }
        ensures set { self.new ≡ record self.old { values = slice_set self.old.values at value; mask = slice_set self.old.mask at mask } }
    {
        self.values[at] = value;
        self.mask[at] = mask;
    }

    /// Shows a run of pixels by the numbers at the offsets of a walk, in a frame of them. Each takes an addition or two for its offset, a
    /// multiplication for its byte, and no test of where it lies.
    pub fn show(&mut self, run: Run, frame: &[u64], walk: OffsetWalk, shades: Shades)
        requires run { IsRunOf self.old run }
        requires small { length frame.now ≤ 2 ^ 32 }
        requires offsets { (k : ℕ) → k < run.columns → LiesIn (offset_ahead walk k) 0 (length frame.now) }
        ensures { ShowsRun self.old self.new run (λ k. shown (slice_index frame.now (place_ahead walk k)) shades.low shades.high) }
    {
        show(&mut self.values, run, frame, walk, shades);
        fill(&mut self.mask, run);
    }
}
