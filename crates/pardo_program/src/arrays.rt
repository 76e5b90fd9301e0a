//! Shared arrays.
ghost use Rattle.std.specs.Prelude.{◌≡◌, ◌<◌, ◌^◌, IfOk};
ghost use Rattle.pardo_program.specs.Program.{is_scalar_shape, places_of_shape, width_of};

use std::alloc::{AllocError, Global};
use std::marker::Model;

/// How many indices a place has, and how many places there are.
#[derive(Clone, Copy, Debug, PartialEq, Eq)]
pub enum Shape {
    /// A scalar has one place, without an index.
    Scalar,
    /// So many places, of one index.
    Line(u32),
    /// So many rows and columns: a place has two indices.
    Table(u32, u32),
}

impl Shape {
    /// How many places there are.
    pub fn places(self) -> u32
        requires { places_of_shape self < 2 ^ 32 }
        ensures { result ≡ places_of_shape self }
    {
        match self {
            Shape::Scalar => 1,
            Shape::Line(places) => places,
            Shape::Table(rows, columns) => rows * columns,
        }
    }

    fn is_scalar(self) -> bool
        ensures { result ≡ is_scalar_shape self }
    {
        matches!(self, Shape::Scalar)
    }

    fn width(self) -> Option<u32>
        ensures { result ≡ width_of self }
    {
        match self {
            Shape::Table(_, columns) => Some(columns),
            _ => None,
        }
    }
}

/// A shared array, or a scalar, which is an array of one place.
#[derive(Drop)]
pub struct Array {
    name: Vec<u8>,
    is_scalar: bool,
    width: Option<u32>,
    base: usize,
    start: Vec<u32>,
}

impl Model for Array {
    ghost use Rattle.pardo_program.specs.Program.{ArrayData};

    ghost Value = { ArrayData };

    ghost view = { λ a. record {
      name = a.name.items;
      is_scalar = a.is_scalar;
      width = a.width;
      base = a.base;
      start = a.start.items;
    } };
}

impl Array {
    /// An array of this name and shape, with so many shared places before it.
    pub fn new(name: Vec<u8>, shape: Shape, base: usize, start: Vec<u32>) -> Self
        ensures { result ≡ record {
          name = name.items;
          is_scalar = is_scalar_shape shape;
          width = width_of shape;
          base = base;
          start = start.items;
        } }
    {
        Array {
            name,
            is_scalar: shape.is_scalar(),
            width: shape.width(),
            base,
            start,
        }
    }

    /// The same array once more.
    pub(crate) fn copied(&self, alloc: Global) -> Result<Self, AllocError>
        ensures { IfOk result (λ array. array ≡ self.now) }
    {
        let name = Vec::from_slice(alloc, self.name())?;
        let start = Vec::from_slice(alloc, self.start())?;
        Ok(Array {
            name,
            is_scalar: self.is_scalar,
            width: self.width,
            base: self.base,
            start,
        })
    }

    /// The name.
    pub fn name(&self) -> &[u8]
        ensures { result.now ≡ self.now.name }
    {
        self.name.as_slice()
    }

    /// Whether it was declared without brackets.
    pub fn is_scalar(&self) -> bool
        ensures { result ≡ self.now.is_scalar }
    {
        self.is_scalar
    }

    /// How many columns it has, if its places have two indices.
    pub fn width(&self) -> Option<u32>
        ensures { result ≡ self.now.width }
    {
        self.width
    }

    /// How many shared places stand before it.
    pub fn base(&self) -> usize
        ensures { result ≡ self.now.base }
    {
        self.base
    }

    /// The value that each of its places starts with.
    pub fn start(&self) -> &[u32]
        ensures { result.now ≡ self.now.start }
    {
        self.start.as_slice()
    }
}
