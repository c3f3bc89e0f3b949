//! Raw memory. `Start` says where a block begins, `Row` owns what stands in it, `Right` is the right to
//! free it. The last two take no bytes, and neither may be dropped: only `free` ends them, together.
ghost use Rattle.std.specs.Prelude.{◌≡◌, ℕ, ◌+◌, ◌<◌, List, [], ◌∷◌, ◌++◌, length, IfOk, ⊤};
ghost use Rattle.std.specs.Borrow.{sem};
ghost use Rattle.std.specs.Vec.Ownership.{FitsInBlock};
ghost use base.Fml.{ftrue};
ghost use denote.RawPtr.{Ptr};
ghost use Rattle.crl_pane.specs.Blocks.{row_owns, row_lends, right_owns};

use std::alloc::{AllocError, Allocator};
use std::marker::{Model, PhantomData, Send, Sync};
use std::mem::{align_of, size_of};
use std::slice;

/// Where a block begins. It owns nothing.
pub struct Start<T> {
    ptr: *mut T,
}

impl<T> Clone for Start<T> {
    ghost is_clone = { λ x y. y ≡ x };

    ghost is_infallible = { λ _. ⊤ };

    fn clone(&self) -> Result<Start<T>, AllocError> {
        Ok(*self)
    }
}

impl<T> Copy for Start<T> {}

unsafe impl<T> Send for Start<T> {}

unsafe impl<T> Sync for Start<T> {}

/// The owner of the values from `at` on, and of the `left` empty places behind them.
pub struct Row<T> {
    mark: PhantomData<*const T>,
    ghost at: { Ptr },
    ghost items: { List T },
    ghost left: { ℕ },
}

impl<T> Model for Row<T> {
    ghost also_owns = { λ row. row_owns T.row row.at row.items row.left };

    ghost also_shares = { λ row _ κ. row_lends T.row row.at row.items row.left κ };
}

unsafe impl<T: Send> Send for Row<T> {}

unsafe impl<T: Sync> Sync for Row<T> {}

/// The right to give the block of `len` places at `at` back to `alloc`.
pub struct Right<T, A: Allocator> {
    mark: PhantomData<*const (T, A)>,
    ghost at: { Ptr },
    ghost len: { ℕ },
    ghost alloc: { A },
}

impl<T, A: Allocator> Model for Right<T, A> {
    ghost also_owns = { λ right. right_owns T.row (A.dealloc_token right.alloc) right.at right.len };

    ghost also_shares = { λ _ _ _. ftrue };
}

unsafe impl<T, A: Allocator + Send> Send for Right<T, A> {}

// A `&` to it holds nothing.
unsafe impl<T, A: Allocator> Sync for Right<T, A> {}

/// A block of `len` empty places.
pub(crate) fn reserve<T, A: Allocator>(
    alloc: &A,
    len: usize,
) -> Result<(Start<T>, Row<T>, Right<T, A>), AllocError>
    requires { FitsInBlock T.row len }
    ensures { IfOk result (λ r. (r.1.at ≡ r.0.ptr) × (r.1.items ≡ []) × (r.1.left ≡ len) × (r.2.at ≡ r.0.ptr) × (r.2.len ≡ len) × (r.2.alloc ≡ alloc.now)) }
{
    match alloc.allocate(len * size_of::<T>(), align_of::<T>()) {
        Ok(block) => {
            let start = Start {
                ptr: block as *mut T,
            };
            Ok((
                start,
                Row { mark: PhantomData },
                Right { mark: PhantomData },
            ))
        }
        Err(error) => Err(error),
    }
}

/// Gives a block back. `unsafe`, since its values are forgotten: they may have to be spent.
pub(crate) unsafe fn free<T, A: Allocator>(
    alloc: &A,
    start: Start<T>,
    len: usize,
    row: Row<T>,
    right: Right<T, A>,
)
    requires { (row.at ≡ start.ptr) × (length row.items + row.left ≡ len) × (right.at ≡ start.ptr) × (right.len ≡ len) × (right.alloc ≡ alloc.now) }
{
    let Row { mark: _ } = row;
    let Right { mark: _ } = right;
    unsafe {
        alloc.deallocate(start.ptr as *mut u8, len * size_of::<T>(), align_of::<T>());
    }
}

impl<T> Row<T> {
    ghost use Rattle.crl_pane.specs.RowLends.{LendsRow};

    /// Writes the first of the empty places, which is the one at `index`.
    pub(crate) fn push(&mut self, start: Start<T>, index: usize, item: T)
        requires { (start.ptr ≡ self.old.at) × (index ≡ length self.old.items) × (0 < self.old.left) }
        ensures { (self.new.at ≡ self.old.at) × (self.new.items ≡ self.old.items ++ item ∷ []) × (self.new.left + 1 ≡ self.old.left) }
    {
        unsafe { start.ptr.add(index).write(item) }
    }

    /// The values.
    pub(crate) fn slice(&self, start: Start<T>, len: usize) -> &[T]
        requires { (start.ptr ≡ self.now.at) × (len ≡ length self.now.items) }
        ensures { result.now ≡ self.now.items }
    {
        unsafe { slice::from_raw_parts(start.ptr, len) }
    }

    /// The values, to be written.
    pub(crate) fn slice_mut(&mut self, start: Start<T>, len: usize) -> &mut [T]
        requires { (start.ptr ≡ self.old.at) × (len ≡ length self.old.items) }
        ensures* writes_back { sem 𝓛 (LendsRow T.row self.entry result) }
        ensures value { result.now ≡ self.old.items }
    {
        unsafe { slice::from_raw_parts_mut(start.ptr, len) }
    }
}
