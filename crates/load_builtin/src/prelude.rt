//! The texts of the list procedures that take a procedure: what a call of one means during expansion.

ghost use Rattle.std.specs.Prelude.{◌≡◌, option_map};
ghost use Rattle.load_builtin.specs.Prelude.{prelude_text};

use base_data::op::{Op, names};

pub const MAP: &[u8] = br#"(letrec ((one (lambda (f l) (if (null? l) '()
       (cons (f (car l)) (one f (cdr l))))))
     (many (lambda (f ls) (if (null? (car ls)) '()
       (cons (apply f (one car ls)) (many f (one cdr ls)))))))
   (lambda (f l . ls) (if (null? ls) (one f l) (many f (cons l ls)))))"#;

pub const FOR_EACH: &[u8] = br#"(lambda (f l . ls) (begin (apply map f l ls) (if #f #f)))"#;

pub const FOR_ALL: &[u8] = br#"(letrec ((all (lambda (f ls) (if (null? (car ls)) #t
     (if (null? (cdr (car ls))) (apply f (map car ls))
       (if (apply f (map car ls)) (all f (map cdr ls)) #f))))))
   (lambda (f l . ls) (all f (cons l ls))))"#;

pub const EXISTS: &[u8] = br#"(letrec ((any (lambda (f ls) (if (null? (car ls)) #f
     (if (null? (cdr (car ls))) (apply f (map car ls))
       ((lambda (t) (if t t (any f (map cdr ls))))
        (apply f (map car ls))))))))
   (lambda (f l . ls) (any f (cons l ls))))"#;

pub const FILTER: &[u8] = br#"(letrec ((go (lambda (f l) (if (null? l) '()
     (if (f (car l)) (cons (car l) (go f (cdr l))) (go f (cdr l))))))) go)"#;

pub const REMP: &[u8] = br#"(lambda (f l) (filter (lambda (x) (not (f x))) l))"#;

pub const FIND: &[u8] = br#"(letrec ((go (lambda (f l) (if (null? l) #f
     (if (f (car l)) (car l) (go f (cdr l))))))) go)"#;

pub const MEMP: &[u8] = br#"(letrec ((go (lambda (f l) (if (null? l) #f
     (if (f (car l)) l (go f (cdr l))))))) go)"#;

pub const FOLD_LEFT: &[u8] = br#"(letrec ((go (lambda (f z ls) (if (null? (car ls)) z
     (go f (apply f z (map car ls)) (map cdr ls))))))
   (lambda (f z l . ls) (go f z (cons l ls))))"#;

pub const FOLD_RIGHT: &[u8] = br#"(letrec ((go (lambda (f z ls) (if (null? (car ls)) z
     (apply f (append (map car ls) (list (go f z (map cdr ls)))))))))
   (lambda (f z l . ls) (go f z (cons l ls))))"#;

/// The text of a procedure's meaning during expansion, where it is given by a text. It takes no memory.
pub fn prelude_source(op: Op) -> Option<&'static [u8]>
    ensures { option_map (λ text. text.now) result ≡ prelude_text op.0 }
{
    match op.0 {
        names::FOR_EACH => Some(FOR_EACH),
        names::MAP => Some(MAP),
        names::FIND => Some(FIND),
        names::FOR_ALL => Some(FOR_ALL),
        names::EXISTS => Some(EXISTS),
        names::FILTER => Some(FILTER),
        names::FOLD_LEFT => Some(FOLD_LEFT),
        names::FOLD_RIGHT => Some(FOLD_RIGHT),
        names::REMP => Some(REMP),
        names::MEMP => Some(MEMP),
        _ => None,
    }
}
