//! The numbers of a profile.
use icc_model::{Base, Curve, Lut, Profile, Stages, Transform, Values, curve_at};
use md5::{Digest, Md5};
use std::io;

/// Prints the numbers of a profile: a line for each part.
pub(crate) fn print(rt: &HostRuntime, profile: &Profile) -> io::Result<()> {
    match profile.base() {
        None => {}
        Some(Base::Matrix { columns, curves }) => {
            let [red, green, blue] = curves;
            print_numbers(rt, "  columns", columns)?;
            println!(rt; "")?;
            print_curve(rt, "rTRC", red)?;
            print_curve(rt, "gTRC", green)?;
            print_curve(rt, "bTRC", blue)?;
        }
        Some(Base::Gray { curve }) => print_curve(rt, "kTRC", curve)?,
    }
    for number in 0..3u8 {
        print_transform(rt, "A2B", number, profile.forward(number))?;
    }
    for number in 0..3u8 {
        print_transform(rt, "B2A", number, profile.backward(number))?;
    }
    Ok(())
}

fn print_numbers(rt: &HostRuntime, name: &str, numbers: &[i32]) -> io::Result<()> {
    print!(rt; "{name}")?;
    for n in numbers {
        print!(rt; " {n}")?;
    }
    Ok(())
}

/// Prints a curve's values from 0 to 65535, 4369 apart.
fn print_curve(rt: &HostRuntime, name: &str, curve: &Curve) -> io::Result<()> {
    print!(rt; "  {name}")?;
    for k in 0..16u16 {
        let value = curve_at(curve, 4369 * k);
        print!(rt; " {value}")?;
    }
    println!(rt; "")
}

fn print_transform(
    rt: &HostRuntime,
    name: &str,
    number: u8,
    transform: Option<&Transform>,
) -> io::Result<()> {
    match transform {
        None => Ok(()),
        Some(Transform::Lut(lut)) => {
            print!(rt; "  {name}{number}")?;
            print_lut(rt, lut)
        }
        Some(Transform::Stages(stages)) => {
            print!(rt; "  {name}{number}")?;
            print_stages(rt, stages)
        }
    }
}

fn print_lut(rt: &HostRuntime, lut: &Lut) -> io::Result<()> {
    let bits = if lut.wide { 16 } else { 8 };
    let before = lut.before_count;
    let after = lut.after_count;
    let grid = lut.grid;
    print!(rt; ": {bits} bits, {grid} grid points, tables of {before} and {after}, MD5 ")?;
    for byte in digest(lut) {
        print!(rt; "{byte:02x}")?;
    }
    print_numbers(rt, " matrix", &lut.matrix)?;
    println!(rt; "")
}

/// The MD5 of all values: input tables, lattice, output tables, with the highest byte first.
fn digest(lut: &Lut) -> [u8; 16] {
    let mut hasher = Md5::new();
    add(&mut hasher, &lut.before);
    for k in 0..lut.nodes.count() {
        hasher.update(lut.nodes.at(k).to_be_bytes().as_slice());
    }
    add(&mut hasher, &lut.after);
    hasher.finalize()
}

fn add(hasher: &mut Md5, values: &Values) {
    for value in values.items() {
        hasher.update(value.to_be_bytes().as_slice());
    }
}

fn print_stages(rt: &HostRuntime, stages: &Stages) -> io::Result<()> {
    let inputs = stages.inputs;
    print!(rt; ": stages of {inputs} channels, grid")?;
    if let Some(lattice) = &stages.lattice {
        for points in lattice.grid.iter().take(usize::from(inputs)) {
            print!(rt; " {points}")?;
        }
    }
    print!(rt; ", MD5 ")?;
    for byte in stages_digest(stages) {
        print!(rt; "{byte:02x}")?;
    }
    match &stages.matrix {
        None => println!(rt; " matrix"),
        Some(stage) => {
            print_numbers(rt, " matrix", &stage.matrix)?;
            println!(rt; "")
        }
    }
}

/// The MD5 of the curves at 16 values each, B, M and A, and of the nodes.
fn stages_digest(stages: &Stages) -> [u8; 16] {
    let mut hasher = Md5::new();
    add_curves(&mut hasher, &stages.b);
    if let Some(stage) = &stages.matrix {
        add_curves(&mut hasher, &stage.curves);
    }
    if let Some(stage) = &stages.lattice {
        let (curves, _) = stage.curves.split_at(usize::from(stage.inputs).min(4));
        add_curves(&mut hasher, curves);
        for k in 0..stage.nodes.count() {
            hasher.update(stage.nodes.at(k).to_be_bytes().as_slice());
        }
    }
    hasher.finalize()
}

fn add_curves(hasher: &mut Md5, curves: &[Curve]) {
    for curve in curves {
        for k in 0..16u16 {
            hasher.update(curve_at(curve, 4369 * k).to_be_bytes().as_slice());
        }
    }
}
