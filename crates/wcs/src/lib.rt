// A WCS over projected points: a reference pixel, and the factors from pixels to degrees.
#![tactic(auto)]

ghost use Rattle.std.specs.Prelude.{◌≡◌, ◌≤◌, length};
ghost use Rattle.answer.specs.Answers.{written};
ghost use Rattle.wcs.specs.Wcs.{wcs_in, wcs_numbers, plate_of, is_wcs};

use cd_plate::Cd;

// The reference pixel, and the factors from pixels to degrees.
#[derive(Clone, Copy)]
pub struct Wcs {
    pub crpix1: f64,
    pub crpix2: f64,
    pub cd1_1: f64,
    pub cd1_2: f64,
    pub cd2_1: f64,
    pub cd2_2: f64,
}

impl Wcs {
    // The WCS that six numbers make.
    pub fn of(m: &[f64]) -> Wcs
        requires { 6 ≤ length m.now }
        ensures { result ≡ wcs_in m.now }
    {
        Wcs {
            crpix1: m[0],
            crpix2: m[1],
            cd1_1: m[2],
            cd1_2: m[3],
            cd2_1: m[4],
            cd2_2: m[5],
        }
    }

    // Its factors as a plate that adds nothing.
    pub fn plate(self) -> Cd
        ensures { result ≡ plate_of self }
    {
        Cd::new(self.cd1_1, self.cd1_2, 0.0, self.cd2_1, self.cd2_2, 0.0)
    }

    // Whether the reference pixel is a position, and each factor finite.
    pub fn is_taken(self) -> bool
        ensures { result ≡ is_wcs self }
    {
        let pixel = domain::is_position(self.crpix1) & domain::is_position(self.crpix2);
        pixel & self.plate().is_finite()
    }
}

// The numbers of a WCS to the front of a list.
pub fn put_wcs(w: Wcs, wcs: &mut [f64])
    requires { 6 ≤ length wcs.old }
    ensures { wcs.new ≡ written (wcs_numbers w) wcs.old }
{
    wcs[0] = w.crpix1;
    wcs[1] = w.crpix2;
    wcs[2] = w.cd1_1;
    wcs[3] = w.cd1_2;
    wcs[4] = w.cd2_1;
    wcs[5] = w.cd2_2;
}
