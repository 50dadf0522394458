//! The outside as it is.
ghost use Rattle.std.specs.Prelude.{◌≡◌, ◌≢◌, ◌<◌, ◌≤◌, ◌↔◌, [], ℕ, IfOk, IfSome, IsSome, IsNone, None, IsOk, IsErr, OnOk, OnErr, OnSome, length, take};
ghost use Rattle.std.specs.Option.{ForSome};
ghost use Rattle.std.specs.Io.KnownBytes.{Consumes, IsAtEnd};
ghost use Rattle.tm_base.specs.Limits.{max_blocks};
ghost use Rattle.tm_world.specs.declared.world.Part.{Part};
ghost use Rattle.tm_world.specs.declared.world.Side.{Side};
ghost use Rattle.tm_world.specs.Disk.{synced};
ghost use Rattle.tm_world.specs.Outside.{part_of, disk, put_disk, took, attached, attached_count};
ghost use Rattle.tm_world.specs.Log.{now, Steps, Says, Writes};
ghost use Rattle.tm_fileworld.specs.Untold.{untold};
ghost use Rattle.tm_world.specs.Counts.{counted};
ghost use Rattle.tm_fileworld.specs.Blocks.{first_byte};
ghost use Rattle.tm_fileworld.specs.Places.{ReadsAt, WritesAt, OnFile};
ghost use Rattle.tm_world.specs.Faults.{Rose, NeverLess};
ghost use Rattle.tm_fileworld.specs.Images.{image_at};
ghost use Rattle.tm_fileworld.specs.World.{blocks_of, file_of, script_of, faults_of, KeepsFiles};

#[cfg(test)]
mod tests;

use crate::image::open_image;
use crate::images::Images;
use crate::streams::{read_some, write_all};
use std::fs::File;
use std::io;
use std::io::Read;
use std::rt::Files;
use tm_world::{Failed, Faults, Part, Side, World};

/// Images and a script in real files, and standard output (`docs/DISKS.md`, "A world over files").
///
/// It tells no contents, since anybody may write the files. What is proved is how many blocks each
/// side has, and that a call which fails is one fault of its part, and any other call is none.
#[derive(Drop)]
pub struct FileWorld<'a, R: Files + Print> {
    rt: &'a R,
    images: Images<R::File>,
    script: Option<R::File>,
    faults: Faults,
}

// The part that a side is.
fn part(side: Side) -> Part
    ensures { result ≡ part_of side }
{
    match side {
        Side::Volume => Part::Volume,
        Side::Store => Part::Store,
    }
}

// Reads the next bytes of a script; it fails where there is none.
fn take_from<F: Read>(script: &mut Option<F>, into: &mut [u8]) -> Result<usize, Failed>
    ensures within { IfOk result (λ n. n ≤ length into.new) }
    ensures bytes { IfOk result (λ n. OnFile (λ old new. Consumes (F.remaining old) (F.remaining new) (take n into.new)) script.old script.new) }
    ensures end { IfOk result (λ n. n ≡ 0 → 0 < length into.old → IfSome script.new (λ file. IsAtEnd (F.remaining file))) }
    ensures none { IsNone script.old → IsErr result }
{
    match script {
        Some(file) => read_some(file, into),
        None => Err(Failed),
    }
}

impl<'a, R: Files + Print> FileWorld<'a, R> {
    /// Nothing is attached, and nothing has failed. It takes no memory.
    pub fn new(rt: &'a R) -> FileWorld<'a, R>
        ensures blocks { (side : Side) → blocks_of result side ≡ 0 }
        ensures files { (side : Side) → file_of result side ≡ None }
        ensures script { script_of result ≡ None }
        ensures faults { faults_of result ≡ (λ _. 0) }
    {
        FileWorld {
            rt,
            images: Images::new(),
            script: None,
            faults: Faults::new(),
        }
    }

    // Attaches an image as a side.
    fn attach_image(&mut self, side: Side, path: &str, create: Option<u32>) -> Result<u32, Failed>
        requires { ForSome create (λ n. n ≤ max_blocks) }
        ensures most { IfOk result (λ n. n ≤ max_blocks) }
        ensures blocks { IfOk result (λ n. blocks_of self.new side ≡ n) }
        ensures file { OnSome create (OnOk result (IsSome (file_of self.new side))) }
        ensures other { (other : Side) → other ≢ side → image_at self.new.images other ≡ image_at self.old.images other }
        ensures err { OnErr result (self.new.images ≡ self.old.images) }
        ensures script { script_of self.new ≡ script_of self.old }
        ensures faults { self.new.faults ≡ self.old.faults }
    {
        let image = open_image(self.rt, path, create)?;
        Ok(self.images.put(side, image))
    }

    // Attaches a script, which has no blocks.
    fn attach_script(&mut self, path: &str) -> Result<u32, Failed>
        ensures none { IfOk result (λ n. n ≡ 0) }
        ensures script { OnOk result (IsSome (script_of self.new)) }
        ensures err { OnErr result (script_of self.new ≡ script_of self.old) }
        ensures images { self.new.images ≡ self.old.images }
        ensures faults { self.new.faults ≡ self.old.faults }
    {
        match File::open(self.rt, path) {
            Ok(file) => {
                self.script = Some(file);
                Ok(0)
            }
            Err(_) => Err(Failed),
        }
    }

    // Attaches a part.
    fn attach_part(&mut self, part: Part, path: &str, create: Option<u32>) -> Result<u32, Failed>
        requires part { part ≢ Part.Out }
        requires create { ForSome create (λ n. n ≤ max_blocks) }
        ensures most { IfOk result (λ n. n ≤ max_blocks) }
        ensures none { part ≡ Part.Script → IfOk result (λ n. n ≡ 0) }
        ensures blocks { (side : Side) → part_of side ≡ part → IfOk result (λ n. blocks_of self.new side ≡ n) }
        ensures file { (side : Side) → part_of side ≡ part → OnSome create (OnOk result (IsSome (file_of self.new side))) }
        ensures other { (side : Side) → part_of side ≢ part → image_at self.new.images side ≡ image_at self.old.images side }
        ensures script { part ≡ Part.Script → OnOk result (IsSome (script_of self.new)) }
        ensures old_script { part ≢ Part.Script → script_of self.new ≡ script_of self.old }
        ensures err { OnErr result (KeepsFiles self.old self.new) }
        ensures faults { self.new.faults ≡ self.old.faults }
    {
        match part {
            Part::Volume => self.attach_image(Side::Volume, path, create),
            Part::Store => self.attach_image(Side::Store, path, create),
            Part::Script => self.attach_script(path),
            Part::Out => unreachable!(),
        }
    }
}

impl<'a, R: Files + Print> World for FileWorld<'a, R> {
    ghost use Rattle.tm_fileworld.specs.World.{blocks_of, faults_of};
    ghost use Rattle.tm_fileworld.specs.Untold.{untold};

    ghost told = { ⊥ };

    ghost log = { λ _. untold };

    ghost blocks = { blocks_of };

    ghost faults = { faults_of };

    ghost counts = { λ told. absurd told };

    ghost small = { λ told. absurd told };

    /// It fails where a file is there and cannot be opened, read and written; where an image cannot
    /// be made, or not made stable; and where no script is there.
    fn attach(&mut self, part: Part, path: &str, create: Option<u32>) -> Result<u32, Failed>
        requires part { part ≢ Part.Out }
        requires create { ForSome create (λ n. (1 ≤ n) × (n ≤ max_blocks)) }
        ensures most { IfOk result (λ n. n ≤ max_blocks) }
        ensures blocks { (side : Side) → part_of side ≡ part → IfOk result (λ n. blocks_of self.new side ≡ n) }
        ensures other { (side : Side) → part_of side ≢ part → blocks_of self.new side ≡ blocks_of self.old side }
        ensures never_less { NeverLess (faults_of self.old) (faults_of self.new) }
        ensures cause { OnErr result (Rose (faults_of self.old part) (faults_of self.new part)) }

        ensures counts { faults_of self.new ≡ counted part result (faults_of self.old) }
        ensures none { part ≡ Part.Script → IfOk result (λ n. n ≡ 0) }
        ensures file { (side : Side) → part_of side ≡ part → OnSome create (OnOk result (IsSome (file_of self.new side))) }
        ensures other_file { (side : Side) → part_of side ≢ part → file_of self.new side ≡ file_of self.old side }
        ensures new_script { part ≡ Part.Script → OnOk result (IsSome (script_of self.new)) }
        ensures old_script { part ≢ Part.Script → script_of self.new ≡ script_of self.old }
        ensures keeps { OnErr result (KeepsFiles self.old self.new) }

        // Contents are not told.
        ensures ok { ⊥ → OnOk result (Steps untold untold (attached part path.now create (now untold))) }
        ensures err { ⊥ → OnErr result (Steps untold untold (now untold)) }
        ensures count { ⊥ → IfOk result (λ n. n ≡ attached_count part (now untold)) }
        ensures script { ⊥ → part ≡ Part.Script → OnOk result (IsSome ((now untold).scripts path.now)) }
    {
        let done = self.attach_part(part, path, create);
        self.faults.count(part, done)
    }

    /// It fails where the file cannot be read, or has become shorter.
    fn read(&mut self, side: Side, block: u32, into: &mut [u8; 4096]) -> Result<(), Failed>
        requires { block < blocks_of self.old side }
        ensures blocks { blocks_of self.new ≡ blocks_of self.old }
        ensures never_less { NeverLess (faults_of self.old) (faults_of self.new) }
        ensures cause { OnErr result (Rose (faults_of self.old (part_of side)) (faults_of self.new (part_of side))) }

        ensures counts { faults_of self.new ≡ counted (part_of side) result (faults_of self.old) }
        ensures reads { OnOk result (OnFile (ReadsAt R.File.Seek.stream_position R.File.Read.remaining (first_byte block) into.new)
            (file_of self.old side) (file_of self.new side)) }
        ensures other { (other : Side) → other ≢ side → file_of self.new other ≡ file_of self.old other }
        ensures script { script_of self.new ≡ script_of self.old }

        // Contents are not told.
        ensures bytes { ⊥ → OnOk result (into.new ≡ (disk side (now untold)).bytes block) }
        ensures steps { ⊥ → Steps untold untold (now untold) }
    {
        let done = self.images.read(side, block, into);
        self.faults.count(part(side), done)
    }

    /// It fails where the file cannot be written.
    fn write(&mut self, side: Side, block: u32, bytes: &[u8; 4096]) -> Result<(), Failed>
        requires { block < blocks_of self.old side }
        ensures blocks { blocks_of self.new ≡ blocks_of self.old }
        ensures never_less { NeverLess (faults_of self.old) (faults_of self.new) }
        ensures cause { OnErr result (Rose (faults_of self.old (part_of side)) (faults_of self.new (part_of side))) }

        ensures counts { faults_of self.new ≡ counted (part_of side) result (faults_of self.old) }
        ensures writes { OnOk result (OnFile (WritesAt R.File.Seek.stream_position R.File.Write.contents (first_byte block) bytes.now)
            (file_of self.old side) (file_of self.new side)) }
        ensures other { (other : Side) → other ≢ side → file_of self.new other ≡ file_of self.old other }
        ensures script { script_of self.new ≡ script_of self.old }

        // Contents are not told.
        ensures steps { ⊥ → Writes side block bytes.now untold untold result }
    {
        let done = self.images.write(side, block, bytes);
        self.faults.count(part(side), done)
    }

    /// It fails where the system cannot make the file stable.
    fn sync(&mut self, side: Side) -> Result<(), Failed>
        ensures blocks { blocks_of self.new ≡ blocks_of self.old }
        ensures never_less { NeverLess (faults_of self.old) (faults_of self.new) }
        ensures cause { OnErr result (Rose (faults_of self.old (part_of side)) (faults_of self.new (part_of side))) }

        ensures counts { faults_of self.new ≡ counted (part_of side) result (faults_of self.old) }
        ensures none { blocks_of self.old side ≡ 0 → IsOk result }
        ensures files { file_of self.new ≡ file_of self.old }
        ensures script { script_of self.new ≡ script_of self.old }

        // Contents are not told.
        ensures ok { ⊥ → OnOk result (Steps untold untold (put_disk side (synced (disk side (now untold))) (now untold))) }
        ensures err { ⊥ → OnErr result (Steps untold untold (now untold)) }
    {
        let done = self.images.sync(side);
        self.faults.count(part(side), done)
    }

    /// It fails where no script is attached, or its file cannot be read.
    fn take(&mut self, into: &mut [u8]) -> Result<usize, Failed>
        requires { 0 < length into.old }
        ensures within { IfOk result (λ n. n ≤ length into.new) }
        ensures blocks { blocks_of self.new ≡ blocks_of self.old }
        ensures never_less { NeverLess (faults_of self.old) (faults_of self.new) }
        ensures cause { OnErr result (Rose (faults_of self.old Part.Script) (faults_of self.new Part.Script)) }

        ensures counts { faults_of self.new ≡ counted Part.Script result (faults_of self.old) }
        ensures reads { IfOk result (λ n. OnFile (λ old new. Consumes (R.File.Read.remaining old) (R.File.Read.remaining new) (take n into.new))
            (script_of self.old) (script_of self.new)) }
        ensures at_end { IfOk result (λ n. n ≡ 0 → IfSome (script_of self.new) (λ file. IsAtEnd (R.File.Read.remaining file))) }
        ensures none { IsNone (script_of self.old) → IsErr result }
        ensures files { file_of self.new ≡ file_of self.old }

        // Contents are not told.
        ensures steps { ⊥ → IfOk result (λ n. Steps untold untold (took n (now untold))) }
        ensures bytes { ⊥ → IfOk result (λ n. take n into.new ≡ take n (now untold).unread) }
        ensures fits { ⊥ → IfOk result (λ n. n ≤ length (now untold).unread) }
        ensures end { ⊥ → IfOk result (λ n. (n ≡ 0) ↔ ((now untold).unread ≡ [])) }
        ensures err { ⊥ → OnErr result (Steps untold untold (now untold)) }
    {
        let done = take_from(&mut self.script, into);
        self.faults.count(Part::Script, done)
    }

    /// It fails where standard output does not take the bytes.
    fn say(&mut self, bytes: &[u8]) -> Result<(), Failed>
        ensures blocks { blocks_of self.new ≡ blocks_of self.old }
        ensures never_less { NeverLess (faults_of self.old) (faults_of self.new) }
        ensures cause { OnErr result (Rose (faults_of self.old Part.Out) (faults_of self.new Part.Out)) }

        ensures counts { faults_of self.new ≡ counted Part.Out result (faults_of self.old) }
        ensures files { file_of self.new ≡ file_of self.old }
        ensures script { script_of self.new ≡ script_of self.old }

        // Contents are not told.
        ensures says { ⊥ → (n : ℕ) × OnOk result (n ≡ length bytes.now) × Says untold untold bytes.now n }
    {
        let mut out = io::writer(self.rt);
        let done = write_all(&mut out, bytes);
        self.faults.count(Part::Out, done)
    }
}
