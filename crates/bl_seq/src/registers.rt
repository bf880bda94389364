//! Registers, which take room as they are written.
ghost use Rattle.std.specs.Prelude.{◌≡◌, ◌+◌, ◌-◌, ◌*◌, ◌^◌, ◌<◌, ◌≤◌, ◌++◌, ◌/◌, ◌%◌, ◌↔◌, ℕ, [], ◌∷◌, IsTrue, OnErr, OnOk, IsFalse, if◌then◌else◌, length, slice_get, slice_index_or};
ghost use Rattle.bl_program.specs.Steps.{written};
ghost use Rattle.bl_seq.specs.RegisterTrees.{AreSame, Deepens, IsSameBranch, IsSameTree, Puts, SetsBranch, SetsLeaf, SetsPages, SetsTree, Settles, SettlesTree, SwapsBranch, Widens, Writes, bare, filled, in_tree, number_at, page_in, register_at};
ghost use Rattle.bl_seq.specs.Windows.{AreEqual, IsAt, MaySet, found, seen};

use bl_base::NoMemory;
use std::alloc::Global;
use std::collections::BTreeMap;
use std::marker::Model;
use std::mem;

/// The most cells of a leaf: the variables of a page.
const CELLS: usize = 512;

/// The most leaves of a branch.
const LEAVES: usize = 64;

/// What a cell is charged: twice its bytes, since a list has room for up to twice its items.
const CELL_PRICE: usize = 16;

/// What a slot in a list of branches or of leaves is charged.
const SLOT_PRICE: usize = 48;

/// What may be spent at first.
const FIRST_SPARE: usize = 4_194_304;

/// What may be spent besides for each depth.
const DEPTH_SPARE: usize = 4096;

/// Takes a price from what is spare, and says whether there was so much.
fn spend(spare: &mut usize, price: usize) -> bool
    ensures fits { IsTrue result ↔ (price ≤ spare.old) }
    ensures left { spare.new ≡ (if result then spare.old - price else spare.old) }
{
    if price > *spare {
        return false;
    }
    *spare -= price;
    true
}

/// The numbers of a page's variables, as far as there are cells.
#[derive(Debug, Drop)]
struct Leaf {
    cells: Vec<u64>,
}

impl Model for Leaf {
    ghost use Rattle.std.specs.Prelude.{ℕ, List};

    ghost Value = { List ℕ };

    ghost view = { λ leaf. leaf.cells.items };
}

impl Leaf {
    fn new(alloc: Global) -> Leaf
        ensures { result ≡ [] }
    {
        Leaf {
            cells: Vec::new(alloc),
        }
    }

    /// The number in a cell, if the leaf has it.
    #[inline(always)]
    fn get(&self, cell: usize) -> Option<u64>
        ensures { result ≡ slice_get self.now cell }
    {
        self.cells.get(cell).copied()
    }

    /// How many cells it has.
    fn len(&self) -> usize
        ensures { result ≡ length self.now }
    {
        self.cells.len()
    }

    /// Whether it has no cell.
    fn is_empty(&self) -> bool
        ensures { IsTrue result ↔ (self.now ≡ []) }
    {
        self.cells.is_empty()
    }

    /// Changes the number in a cell, and says whether the leaf has it.
    #[inline(always)]
    fn set(&mut self, cell: usize, number: u64) -> bool
        ensures { SetsLeaf result self.old self.new cell number }
    {
        if cell < self.cells.len() {
            self.cells[cell] = number;
            return true;
        }
        false
    }

    /// Adds a cell.
    fn push(&mut self, number: u64) -> Result<(), NoMemory>
        ensures ok { OnOk result (self.new ≡ self.old ++ (number ∷ [])) }
        ensures err { OnErr result (self.new ≡ self.old) }
    {
        self.cells.push(number)?;
        Ok(())
    }
}

/// The leaves of up to 64 pages in a row.
#[derive(Debug, Drop)]
struct Branch {
    leaves: Vec<Leaf>,
}

impl Model for Branch {
    ghost use Rattle.std.specs.Prelude.{ℕ, List};

    ghost Value = { List (List ℕ) };

    ghost view = { λ branch. branch.leaves.items };
}

impl Branch {
    fn new(alloc: Global) -> Branch
        ensures { result ≡ [] }
    {
        Branch {
            leaves: Vec::new(alloc),
        }
    }

    /// The number in a cell of a leaf, if there is that cell.
    fn get(&self, leaf: usize, cell: usize) -> Option<u64>
        ensures { result ≡ slice_get (slice_index_or self.now leaf []) cell }
    {
        match self.leaves.get(leaf) {
            Some(leaf) => leaf.get(cell),
            None => None,
        }
    }

    /// Changes the number in a cell of a leaf, and says whether there is that cell.
    fn set(&mut self, leaf: usize, cell: usize, number: u64) -> bool
        ensures { SetsBranch result self.old self.new leaf cell number }
    {
        if leaf < self.leaves.len() {
            return self.leaves[leaf].set(cell, number);
        }
        false
    }

    /// Exchanges a leaf of the branch for another one, if one of the two is empty, and says whether it did.
    fn swap(&mut self, number: usize, leaf: &mut Leaf) -> bool
        ensures { SwapsBranch result self.old self.new number leaf.old leaf.new }
    {
        if number < self.leaves.len() && (leaf.is_empty() || self.leaves[number].is_empty()) {
            mem::swap(&mut self.leaves[number], leaf);
            return true;
        }
        false
    }

    /// Makes room for a leaf, and says whether there is. It changes no leaf.
    fn reach(&mut self, alloc: Global, leaf: usize, spare: &mut usize) -> Result<bool, NoMemory>
        requires { leaf < 2 ^ 32 }
        ensures { IsSameBranch self.old self.new }
    {
        let missing = (leaf + 1).saturating_sub(self.leaves.len());
        if !spend(spare, missing * SLOT_PRICE) {
            return Ok(false);
        }
        for _ in 0..missing {
            self.leaves.push(Leaf::new(alloc))?;
        }
        Ok(true)
    }
}

/// The numbers of the variables at a depth: those that have a cell, and strays, which have none.
#[derive(Debug, Drop)]
struct Tree {
    branches: Vec<Branch>,
    strays: BTreeMap<usize, u64>,
}

impl Model for Tree {
    ghost use Rattle.bl_seq.specs.RegisterTrees.{Tree as OneDepth};

    ghost Value = { OneDepth };

    ghost view = { λ tree. record { branches = tree.branches.items; strays = tree.strays.entries } };
}

impl Tree {
    fn new(alloc: Global) -> Tree
        ensures { result ≡ bare }
    {
        Tree {
            branches: Vec::new(alloc),
            strays: BTreeMap::new(alloc),
        }
    }

    /// The number of a variable; 0 where none was written.
    fn at(&self, x: usize) -> u64
        ensures { result ≡ in_tree self.now x }
    {
        match self.get(x) {
            Some(number) => number,
            None => self.strays.get(&x).copied().unwrap_or(0),
        }
    }

    /// The number of a variable, if it has a cell.
    fn get(&self, x: usize) -> Option<u64>
        ensures { result ≡ slice_get (page_in self.now.branches (x / 512)) (x % 512) }
    {
        let page = x / CELLS;
        match self.branches.get(page / LEAVES) {
            Some(branch) => branch.get(page % LEAVES, x % CELLS),
            None => None,
        }
    }

    /// Writes a variable, if it has a cell, and says whether it has.
    fn set(&mut self, x: usize, number: u64) -> bool
        ensures { SetsTree result self.old self.new x number }
    {
        let page = x / CELLS;
        let branch = page / LEAVES;
        branch < self.branches.len() && self.branches[branch].set(page % LEAVES, x % CELLS, number)
    }

    /// Writes a variable.
    fn write(&mut self, x: usize, number: u64) -> Result<(), NoMemory>
        ensures ok { OnOk result (Puts self.old self.new x number) }
        ensures err { OnErr result (IsSameTree self.old self.new) }
    {
        if self.set(x, number) {
            return Ok(());
        }
        self.strays.insert(x, number)?;
        Ok(())
    }

    /// Exchanges the leaf of a page for the one that goes before it, if one of the two is empty, and says whether it did.
    fn swap(&mut self, page: usize, leaf: &mut Leaf) -> bool
        ensures { SettlesTree page leaf.old leaf.new self.old self.new }
    {
        let branch = page / LEAVES;
        branch < self.branches.len() && self.branches[branch].swap(page % LEAVES, leaf)
    }

    /// Makes room for the leaf of a page, and says whether there is. It changes no number.
    fn reach(&mut self, alloc: Global, page: usize, spare: &mut usize) -> Result<bool, NoMemory>
        ensures { IsSameTree self.old self.new }
    {
        let branch = page / LEAVES;
        self.widen(alloc, branch, spare)?;
        if branch < self.branches.len() {
            return self.branches[branch].reach(alloc, page % LEAVES, spare);
        }
        Ok(false)
    }

    /// Makes room for a branch, if what is spare allows. It changes no branch.
    fn widen(&mut self, alloc: Global, branch: usize, spare: &mut usize) -> Result<(), NoMemory>
        requires { branch < 2 ^ 58 }
        ensures { Widens self.old self.new }
    {
        let missing = (branch + 1).saturating_sub(self.branches.len());
        if spend(spare, missing.saturating_mul(SLOT_PRICE)) {
            for _ in 0..missing {
                self.branches.push(Branch::new(alloc))?;
            }
        }
        Ok(())
    }
}

/// The numbers of all depths, and the bytes that may still be spent on cells and slots that nothing was written to.
#[derive(Debug, Drop)]
struct Pages {
    depths: Vec<Tree>,
    spare: usize,
}

impl Model for Pages {
    ghost use Rattle.std.specs.Prelude.{List};
    ghost use Rattle.bl_seq.specs.RegisterTrees.{Tree as OneDepth};

    ghost Value = { List OneDepth };

    ghost view = { λ pages. pages.depths.items };
}

impl Pages {
    /// None was written; takes no memory.
    fn new(alloc: Global) -> Pages
        ensures { result ≡ [] }
    {
        Pages {
            depths: Vec::new(alloc),
            spare: FIRST_SPARE,
        }
    }

    /// The number of a variable at a depth.
    #[cold]
    #[inline(never)]
    fn at(&self, depth: usize, x: usize) -> u64
        ensures { result ≡ number_at self.now depth x }
    {
        match self.depths.get(depth) {
            Some(tree) => tree.at(x),
            None => 0,
        }
    }

    /// Writes a variable at a depth, if it has a cell, and says whether it has.
    fn set(&mut self, depth: usize, x: usize, number: u64) -> bool
        ensures { SetsPages result self.old self.new depth x number }
    {
        depth < self.depths.len() && self.depths[depth].set(x, number)
    }

    /// Writes a variable at a depth.
    fn write(&mut self, alloc: Global, depth: usize, x: usize, number: u64) -> Result<(), NoMemory>
        requires { depth < 2 ^ 63 }
        ensures ok { OnOk result (Writes self.old self.new depth x number) }
        ensures err { OnErr result (AreSame self.old self.new) }
    {
        self.deepen(alloc, depth)?;
        self.depths[depth].write(x, number)
    }

    /// Exchanges the leaf of a page at a depth for the one that goes before it, if one of the two is empty, and says whether it did.
    fn swap(&mut self, depth: usize, page: usize, leaf: &mut Leaf) -> bool
        ensures { Settles depth page leaf.old leaf.new self.old self.new }
    {
        depth < self.depths.len() && self.depths[depth].swap(page, leaf)
    }

    /// Makes room for the leaf of a page at a depth, and says whether there is. It changes no number.
    fn reach(&mut self, alloc: Global, depth: usize, page: usize) -> Result<bool, NoMemory>
        requires { depth < 2 ^ 63 }
        ensures { AreSame self.old self.new }
    {
        self.deepen(alloc, depth)?;
        self.depths[depth].reach(alloc, page, &mut self.spare)
    }

    /// Makes the depth one of the registers'. It changes no number.
    fn deepen(&mut self, alloc: Global, depth: usize) -> Result<(), NoMemory>
        requires { depth < 2 ^ 63 }
        ensures same { Deepens self.old self.new }
        ensures room { OnOk result (depth < length self.new) }
    {
        let missing = (depth + 1).saturating_sub(self.depths.len());
        for _ in 0..missing {
            self.depths.push(Tree::new(alloc))?;
            self.spare = self.spare.saturating_add(DEPTH_SPARE);
        }
        Ok(())
    }

    /// Takes the price of so many cells from what is spare, and says whether there was so much.
    fn charge(&mut self, cells: usize) -> bool
        ensures { self.new ≡ self.old }
    {
        spend(&mut self.spare, cells.saturating_mul(CELL_PRICE))
    }
}

/// The leaf of one page at a depth, which goes before what the pages have there.
#[derive(Debug, Drop)]
struct Window {
    depth: u32,
    page: usize,
    leaf: Leaf,
}

impl Window {
    /// Whether it is at the page of that variable at that depth.
    fn is_at(&self, depth: usize, x: usize) -> bool
        ensures { IsTrue result ↔ IsAt self.now depth x }
    {
        self.depth as usize == depth && self.page == x / CELLS
    }

    /// The number of a variable at a depth, if it has a cell here.
    #[inline(always)]
    fn get(&self, depth: usize, x: usize) -> Option<u64>
        ensures { result ≡ found self.now depth x }
    {
        if self.depth as usize == depth && self.page == x / CELLS {
            return self.leaf.get(x % CELLS);
        }
        None
    }

    /// Writes a variable at a depth, and says whether it has a cell here.
    #[inline(always)]
    fn set(&mut self, depth: usize, x: usize, number: u64) -> bool
        ensures { MaySet result self.old self.new depth x number }
    {
        self.depth as usize == depth && self.page == x / CELLS && self.leaf.set(x % CELLS, number)
    }
}

/// Adds cells to the window up to that of a variable, each with the number that its variable has. It changes no number.
fn fill(pages: &Pages, window: &mut Window, x: usize) -> Result<(), NoMemory>
    requires { window.old.page ≡ x / 512 }
    ensures { AreEqual (seen pages.now window.old) (seen pages.now window.new) }
{
    let first = x - x % CELLS;
    for cell in window.leaf.len()..x % CELLS + 1 {
        let number = pages.at(window.depth as usize, first + cell);
        window.leaf.push(number)?;
    }
    Ok(())
}

/// The registers: a number for each depth and each variable, 0 where none was written. Room is taken as they are written: at most some
/// 64 bytes for each that was, 4 KB for each depth up to the deepest of them, and 4 MB. A variable has a cell in the leaf of its page
/// where that room pays for the cells before it and for the lists that lead to the leaf; else it is a stray, in a map. One page of 512
/// variables at a depth is read and written fastest, the one that was opened last.
#[derive(Debug, Drop)]
pub struct Registers {
    pages: Pages,
    window: Window,
}

impl Model for Registers {
    ghost use Rattle.bl_seq.specs.RegisterTrees.{File};

    ghost Value = { File };

    ghost use Rattle.bl_seq.specs.Windows.{seen};

    ghost view = { λ registers. seen registers.pages registers.window };
}

impl Registers {
    /// Registers of which none was written; takes no memory.
    pub fn new(alloc: Global) -> Registers
        ensures { (d v : ℕ) → register_at result d v ≡ 0 }
    {
        Registers {
            pages: Pages::new(alloc),
            window: Window {
                depth: 0,
                page: 0,
                leaf: Leaf::new(alloc),
            },
        }
    }

    /// The number of a variable at a depth.
    #[inline(always)]
    pub fn at(&self, depth: usize, x: usize) -> u64
        ensures { result ≡ register_at self.now depth x }
    {
        match self.window.get(depth, x) {
            Some(number) => number,
            None => self.pages.at(depth, x),
        }
    }

    /// Opens the page of a variable at a depth, if what is spare allows. It changes no number.
    pub fn open(&mut self, alloc: Global, depth: u32, x: usize) -> Result<(), NoMemory>
        ensures { (d v : ℕ) → register_at self.new d v ≡ register_at self.old d v }
    {
        self.turn(alloc, depth, x / CELLS)
    }

    /// Moves the window to a page at a depth, if what is spare allows. It changes no number.
    fn turn(&mut self, alloc: Global, depth: u32, page: usize) -> Result<(), NoMemory>
        ensures { (d v : ℕ) → register_at self.new d v ≡ register_at self.old d v }
    {
        if self.pages.reach(alloc, depth as usize, page)? {
            self.exchange(alloc)?;
            if self.window.leaf.is_empty() {
                self.window.depth = depth;
                self.window.page = page;
            }
            self.exchange(alloc)?;
        }
        Ok(())
    }

    /// Exchanges the window's leaf for that of the pages which it goes before, if one of the two is empty. It changes no number.
    fn exchange(&mut self, alloc: Global) -> Result<(), NoMemory>
        ensures { (d v : ℕ) → register_at self.new d v ≡ register_at self.old d v }
    {
        let depth = self.window.depth as usize;
        let page = self.window.page;
        if !self.pages.swap(depth, page, &mut self.window.leaf) {
            self.pages.reach(alloc, depth, page)?;
            self.pages.swap(depth, page, &mut self.window.leaf);
        }
        Ok(())
    }

    /// Writes a variable at a depth. A refusal changes no number.
    #[inline(always)]
    pub fn write(
        &mut self,
        alloc: Global,
        depth: usize,
        x: usize,
        number: u64,
    ) -> Result<(), NoMemory>
        requires { depth < 2 ^ 63 }
        ensures ok { OnOk result ((d v : ℕ) → register_at self.new d v ≡ written (λ d v. register_at self.old d v) depth x number d v) }
        ensures err { OnErr result ((d v : ℕ) → register_at self.new d v ≡ register_at self.old d v) }
    {
        if self.window.set(depth, x, number) {
            return Ok(());
        }
        self.put(alloc, depth, x, number)
    }

    /// Writes a variable at a depth, where it has a cell or can get one, and else as a stray.
    #[cold]
    #[inline(never)]
    fn put(&mut self, alloc: Global, depth: usize, x: usize, number: u64) -> Result<(), NoMemory>
        requires { depth < 2 ^ 63 }
        ensures ok { OnOk result ((d v : ℕ) → register_at self.new d v ≡ written (λ d v. register_at self.old d v) depth x number d v) }
        ensures err { OnErr result ((d v : ℕ) → register_at self.new d v ≡ register_at self.old d v) }
    {
        if self.set(depth, x, number) {
            return Ok(());
        }
        self.make_room(alloc, depth, x)?;
        self.place(alloc, depth, x, number)
    }

    /// Writes a variable at a depth, if it has a cell, and says whether it has.
    fn set(&mut self, depth: usize, x: usize, number: u64) -> bool
        ensures yes { IsTrue result → (d v : ℕ) → register_at self.new d v ≡ written (λ d v. register_at self.old d v) depth x number d v }
        ensures no { IsFalse result → (d v : ℕ) → register_at self.new d v ≡ register_at self.old d v }
    {
        self.window.set(depth, x, number) || self.pages.set(depth, x, number)
    }

    /// Writes a variable at a depth, where it has a cell, and else as a stray.
    fn place(&mut self, alloc: Global, depth: usize, x: usize, number: u64) -> Result<(), NoMemory>
        requires { depth < 2 ^ 63 }
        ensures ok { OnOk result ((d v : ℕ) → register_at self.new d v ≡ written (λ d v. register_at self.old d v) depth x number d v) }
        ensures err { OnErr result ((d v : ℕ) → register_at self.new d v ≡ register_at self.old d v) }
    {
        if self.window.set(depth, x, number) {
            return Ok(());
        }
        self.pages.write(alloc, depth, x, number)
    }

    /// Gives a variable at a depth a cell, if what is spare allows. It changes no number.
    fn make_room(&mut self, alloc: Global, depth: usize, x: usize) -> Result<(), NoMemory>
        ensures { (d v : ℕ) → register_at self.new d v ≡ register_at self.old d v }
    {
        let Ok(deep) = u32::try_from(depth) else {
            return Ok(());
        };
        let back = self.window.depth;
        let page = self.window.page;
        self.turn(alloc, deep, x / CELLS)?;
        self.grow(depth, x)?;
        self.turn(alloc, back, page)
    }

    /// Adds cells to the window up to that of a variable at a depth, if it is at that page and what is spare pays for those before it.
    /// It changes no number.
    fn grow(&mut self, depth: usize, x: usize) -> Result<(), NoMemory>
        ensures { (d v : ℕ) → register_at self.new d v ≡ register_at self.old d v }
    {
        let before = (x % CELLS).saturating_sub(self.window.leaf.len());
        if self.window.is_at(depth, x) && self.pages.charge(before) {
            fill(&self.pages, &mut self.window, x)?;
        }
        Ok(())
    }

    /// Writes variables in a row at a depth.
    pub fn write_all(
        &mut self,
        alloc: Global,
        depth: usize,
        from: usize,
        numbers: &[u64],
    ) -> Result<(), NoMemory>
        requires depth { depth < 2 ^ 63 }
        requires room { from + length numbers.now < 2 ^ 64 }
        ensures { OnOk result ((d v : ℕ) → register_at self.new d v ≡ filled (λ d v. register_at self.old d v) depth from numbers.now d v) }
    {
        for (i, number) in numbers.iter().enumerate() {
            self.write(alloc, depth, from + i, *number)?;
        }
        Ok(())
    }
}
