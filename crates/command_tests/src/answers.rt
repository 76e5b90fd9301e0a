//! Lines that start no thread, and words that make no line.
use crate::table::expect;
use std::test::Fail;

// What the lines print that start no thread, and their statuses.
const ANSWERS: &str = "\
$ pramx check job
pram 1~cells 5~procs 4~steps 5~init 1 1~init 3 1~code~pid r0~ld r1 r0~jz r1 end~set r2 4~\
    st r2 r1~end: halt~ | 0 ok cells=5 procs=4 steps=5 code=6~
pram 2~cells 1~procs 1~steps 0~rule common~code~halt~ | 0 ok cells=1 procs=1 steps=0 code=1~
pram 2~cells 1~procs 1~steps 0~rule priority~code~halt~ \
    | 0 ok cells=1 procs=1 steps=0 code=1 rule=priority~
pram 2~cells 1~procs 1~steps 0~rule crew~code~halt~ \
    | 0 ok cells=1 procs=1 steps=0 code=1 rule=crew~
pram 1~cells 5~procs 4~steps 5~init 1 1~init 3 1~code~pid r0~ld r1 r0~jz r1 end~set r2 4~\
    st r2 r1~end: halt~ | 0 ok cells=5 procs=4 steps=5 code=6~
; é~ | 2 text line=1 kind=NotAscii~
 | 2 text line=1 kind=BadHeader~
pram 1~cells x~ | 2 text line=2 kind=BadNumber~
pram 1~cells 65537~ | 2 text line=2 kind=OutOfLimits~
pram 1~cells 1~procs 1~steps 1~code~jmp x~foo~ | 2 text line=7 kind=UnknownInstruction~
pram 1~cells 1~procs 1~steps 1~code~jmp y~set r0~ | 2 text line=7 kind=WrongOperands~
pram 1~cells 1~procs 1~steps 1~code~jz r4 x~ | 2 text line=6 kind=BadRegister~
pram 1~cells 1~procs 1~steps 1~code~a: halt~a: halt~ | 2 text line=7 kind=DuplicateLabel~
pram 1~cells 1~procs 1~steps 1~code~jmp x~ | 2 text line=6 kind=UnknownLabel~
-- a sentence follows the line where it is asked for
no job~ | 2 text line=1 kind=BadHeader~
$ pramx check job --explain
no job~ \
    | 2 text line=1 kind=BadHeader~\
    job:1:1: a program begins with the line `pardo 1`, and a text of the machine with `pram 3`~    \
    no job~    ^~
-- a file is named by its word
$ pramx check plan --explain
 | 2 text line=1 kind=BadHeader~\
    plan:1:1: a program begins with the line `pardo 1`, and a text of the machine with \
    `pram 3`~    worker,act,ticks~    ^~
$ pramx compile job
pardo 1~rule crew~procs i < 2~shared A[2]~code~A[i] := i + 7~ \
    | 0 pram 3~cells 2~procs 2~steps 4~rule crew~array A 0 2~code~pid r3~add r0 r3 7~st A r3 r0~\
    halt~
pardo 1~rule common~procs i < 4~shared A[4] = 3, 1, 4, 1~shared sum = 10~code~sum := sum + A[i]~ \
    | 0 pram 3~cells 5~procs 4~steps 5~rule common~array sum 4 1~array A 0 4~\
    init 0 3 1 4 1 10~code~pid r3~ld r0 sum 0~ld r1 A r3~add r0 r0 r1~st sum 0 r0~halt~
-- a register's name is none of an array; and what is printed, printed again, is by numbers
pardo 1~rule crew~procs i < 2~shared r1[2]~shared A[2] = 3, 4~private x~code~x := i + 7~\
    r1[i] := x + A[i]~ \
    | 0 pram 3~cells 6~procs 2~steps 8~rule crew~array x 4 2~array A 2 2~array .a0_2 0 2~\
    init 2 3 4~code~pid r3~add r0 r3 7~st x r3 r0~ld r0 x r3~ld r1 A r3~add r0 r0 r1~\
    st .a0_2 r3 r0~halt~
pram 3~cells 2~procs 2~steps 4~rule crew~array A 0 2~code~pid r3~add r0 r3 7~st A r3 r0~halt~ \
    | 0 pram 3~cells 2~procs 2~steps 4~rule crew~array .a0_2 0 2~code~pid r3~add r0 r3 7~\
    st .a0_2 r3 r0~halt~
pram 1~cells 4~procs 1~steps 5~init 3 7~init 1 2~code~l: set r1 1~jz r0 l~ \
    | 0 pram 3~cells 4~procs 1~steps 5~rule common~init 1 2~init 3 7~code~L0: set r1 1~jz r0 L0~
pardo 1~rule crew~procs i < 2~shared A[2]~code~A[i] = 7~ | 2 text line=6 kind=BadLine~
pram 1~cells 1~procs 1~steps 1~code~jmp x~ | 2 text line=6 kind=UnknownLabel~
-- names of a program are set
$ pramx plain job --set *
n=3 : pardo 1~rule crew~const n = 2~procs i < n~shared A[n]~shared s = 5~code~A[i] := A[i] + s~ \
    | 0 {1}A = 5 5 5~s = 5~
n=3 --set A=@rows --set s=1 : same | 0 {1}A = 8 9 10~s = 1~
A=4,8 : same | 0 {1}A = 9 13~s = 5~
A=4 : same | 2 set name=A kind=WrongLength~
n=3 --set A=4,5 : same | 2 set name=A kind=WrongLength~
n=1,2 : same | 2 set name=n kind=WrongLength~
A=@plan : same | 2 set name=A kind=BadNumber~
s=4294967296 : same | 2 set name=s kind=OutOfLimits~
s : same | 2 set name=s kind=BadSetting~
s=1 --set s=1 : same | 2 set name=s kind=DuplicateName~
m=1 : same | 2 set name=m kind=UnknownName~
i=1 : same | 2 set name=i kind=WrongKind~
n=0 : same | 2 text line=4 kind=OutOfLimits~
n=1 : pram 1~cells 1~procs 1~steps 0~code~halt~ | 2 set name=n kind=UnknownName~
$ pramx plain job --explain --set *
s=x : pardo 1~rule crew~const n = 2~procs i < n~shared A[n]~shared s = 5~code~A[i] := A[i] + s~ \
    | 2 set name=s kind=BadNumber~--set s: a value must be a number, in digits alone~
m=1 : same | 2 set name=m kind=UnknownName~--set m: the text declares no such name~
$ pramx compile job --set n=1
pardo 1~rule crew~const n = 2~procs i < n~shared A[n]~code~A[i] := 7~ \
    | 0 pram 3~cells 1~procs 1~steps 3~rule crew~{}
$ pramx plain job
-- first texts are answered
pram 1~cells 1~procs 1~steps 0~init 0 5~code~halt~ | 0 done steps=0~0: 5~
pram 1~cells 3~procs 2~steps 3~init 2 8~code~pid r0~set r1 6~st r0 r1~ \
    | 0 done steps=3~0: 6~1: 6~2: 8~
pram 1~cells 1~procs 3~steps 2~code~pid r0~st r1 r0~ | 1 conflict step=2 cell=0 processors=0,1~
pram 1~cells 1~procs 2~steps 2~code~pid r0~st r0 r0~ | 0 done steps=2~0: 0~
-- a register that no cell sees
pram 1~cells 1~procs 1~steps 1~code~set r0 7~ | 0 done steps=1~0: 0~
-- arithmetic goes round
pram 1~cells 1~procs 1~steps 3~code~set r1 1~sub r2 r0 r1~st r0 r2~ \
    | 0 done steps=3~0: 4294967295~
pram 1~cells 1~procs 1~steps 4~code~set r1 4294967295~mul r2 r1 r1~lt r3 r2 r1~st r0 r3~ \
    | 0 done steps=4~0: 1~
-- three processors
pram 1~cells 3~procs 3~steps 4~code~pid r0~set r1 10~add r1 r0 r1~st r0 r1~ \
    | 0 done steps=4~0: 10~1: 11~2: 12~
-- a loop
pram 1~cells 1~procs 1~steps 6~code~set r1 1~l: add r2 r2 r1~st r0 r2~jmp l~ \
    | 0 done steps=6~0: 2~
-- two cells change places
pram 1~cells 2~procs 2~steps 5~init 0 7~init 1 9~code~pid r0~set r1 1~sub r1 r1 r0~ld r2 r1~\
    st r0 r2~ | 0 done steps=5~0: 9~1: 7~
-- load out of range stops its processor
pram 1~cells 2~procs 2~steps 5~init 0 5~init 1 9~code~pid r0~set r1 1~add r2 r0 r1~ld r3 r2~\
    st r0 r3~ | 0 done steps=5~0: 9~1: 9~
-- two writers of equal values
pram 1~cells 5~procs 4~steps 5~init 1 1~init 3 1~code~pid r0~ld r1 r0~jz r1 end~set r2 4~\
    st r2 r1~end: halt~ | 0 done steps=5~0: 0~1: 1~2: 0~3: 1~4: 1~
pram 2~cells 5~procs 4~steps 5~rule common~init 1 1~init 3 1~code~pid r0~ld r1 r0~jz r1 end~\
    set r2 4~st r2 r1~end: halt~ | 0 done steps=5~0: 0~1: 1~2: 0~3: 1~4: 1~
pram 2~cells 5~procs 4~steps 5~rule crew~init 1 1~init 3 1~code~pid r0~ld r1 r0~jz r1 end~\
    set r2 4~st r2 r1~end: halt~ | 1 conflict step=5 cell=4 processors=1,3~
-- two writers of two values
pram 1~cells 5~procs 4~steps 5~init 1 1~init 3 1~code~pid r0~ld r1 r0~jz r1 end~set r2 4~\
    st r2 r0~end: halt~ | 1 conflict step=5 cell=4 processors=1,3~
pram 2~cells 5~procs 4~steps 5~rule priority~init 1 1~init 3 1~code~pid r0~ld r1 r0~jz r1 end~\
    set r2 4~st r2 r0~end: halt~ | 0 done steps=5~0: 0~1: 1~2: 0~3: 1~4: 1~
-- two disputed cells
pram 1~cells 2~procs 4~steps 4~code~pid r0~set r1 1~and r2 r0 r1~st r2 r0~ \
    | 1 conflict step=4 cell=0 processors=0,2~
pram 2~cells 2~procs 4~steps 4~rule priority~code~pid r0~set r1 1~and r2 r0 r1~st r2 r0~ \
    | 0 done steps=4~0: 0~1: 1~
-- what is printed of the jobs of two programs
pram 3~cells 2~procs 2~steps 4~rule crew~array A 0 2~code~pid r3~add r0 r3 7~st A r3 r0~halt~ \
    | 0 done steps=4~0: 7~1: 8~
pram 3~cells 5~procs 4~steps 5~rule common~array sum 4 1~array A 0 4~init 0 3 1 4 1 10~code~\
    pid r3~ld r0 sum 0~ld r1 A r3~add r0 r0 r1~st sum 0 r0~halt~ \
    | 1 conflict step=5 cell=4 processors=0,1~
pram 1~cells 1~procs 1~steps 1~code~ | 2 text line=6 kind=NoCode~
-- who left is named
pardo 1~rule common~procs i < 4~shared A[4]~shared s~private x~code~A[i] := i~~x := A[i + 2]~\
    s := 7~ | 0 done steps={}A = 0 1 2 3~s = 7~gone processor=2 line=10~gone processor=3 line=10~
$ pramx plain job --why & pramx run job --workers 2 --why
pram 1~cells 1~procs 4~steps 9~code~pid r0~set r1 1~and r2 r0 r1~~; the even ones leave~\
    jz r2 end~round: jmp round~end: halt~ | 0 done steps=9~0: 0~running count=2 first=1 line=12~
pram 1~cells 2~procs 4~steps 9~init 0 5~code~pid r0~ld r1 r0~st r0 r1~ \
    | 0 done steps=9~0: 5~1: 0~stopped step=3~lost processor=2 step=2 line=8~\
    outside array=0..1 index=2 length=2~
pram 1~cells 2~procs 4~steps 9~code~pid r0~ld r1 r0~set r2 0~st r2 r0~ \
    | 1 conflict step=4 cell=0 processors=0,1~wrote values=0,1~\
    lost processor=2 step=2 line=7~outside array=0..1 index=2 length=2~
pram 1~cells 1~procs 3~steps 2~code~pid r0~st r1 r0~ \
    | 1 conflict step=2 cell=0 processors=0,1~wrote values=0,1~
-- of a program by its names: an index of an array, one of two, a division, and a conflict
pardo 1~rule common~procs i < 4~shared A[4]~private x~code~x := A[i + 2]~ \
    | 0 done steps=5~A = 0 0 0 0~gone processor=2 line=7~gone processor=3 line=7~stopped step=5~\
    lost processor=2 step=3 line=7~outside array=A index=4 length=4~
pardo 1~rule crew~procs i < 2~shared M[2, 3]~code~M[i, i + 2] := 7~ \
    | 0 done steps=8~M[0] = 0 0 7~M[1] = 0 0 0~gone processor=1 line=6~stopped step=8~\
    lost processor=1 step=5 line=6~outside index=3 length=3~
pardo 1~rule crew~procs i < 2~private x~code~x := 7 / i~ \
    | 0 done steps=5~gone processor=0 line=6~stopped step=5~lost processor=0 step=3 line=6~\
    divided value=7 by=0~
pardo 1~rule common~procs i < 2~shared s~code~s := i + 4~ \
    | 1 conflict line=6 place=s processors=0,1~wrote values=4,5~
-- in which rounds of the loops around: of a loss, in a hidden line too, in a loop's own line of \
    those around that, of a conflict, and of both
pardo 1~rule common~procs i < 2~shared A[3]~code~for j = 5 to 6~for k = 0 to 3~\
    A[i + k * (j - 5)] := 7~end~end~ | 0 done steps=106~A = 7 7 7~gone processor=0 line=8~\
    gone processor=1 line=8~stopped step=106~lost processor=1 step=94 line=8~\
    outside array=A index=3 length=3~round step=94 line=6 value=6~round step=94 line=7 value=2~
pardo 1~rule common~procs i < 2~shared A[2]~private x~code~for k = 1 to 3~\
    x := (i + k) * (i + k) - (k + 1) * (k + i) / ((i + 3) - (k + 1) * (k + i) / (k + i))~end~\
    A[i + 2] := x~ | 0 done steps=89~A = 0 0~gone processor=0 line=8~gone processor=1 line=8~\
    stopped step=89~lost processor=0 step=56 line=8~divided value=6 by=0~\
    round step=56 line=7 value=2~
pardo 1~rule common~procs i < 2~shared A[2]~code~for j = 2 to 3~for k = 0 to 2 / (3 - j)~\
    A[i] := k~end~end~ | 0 done steps=60~A = 2 2~gone processor=0 line=7~\
    gone processor=1 line=7~stopped step=60~lost processor=0 step=60 line=7~\
    divided value=2 by=0~round step=60 line=6 value=3~
pardo 1~rule common~procs i < 2~shared s~code~for k = 4 to 6~s := i * (k - 4)~end~ \
    | 1 conflict line=7 place=s processors=0,1~wrote values=0,1~round step=19 line=6 value=5~
pardo 1~rule common~procs i < 4~shared A[3]~shared s~code~for k = 8 downto 6~if i < 2~\
    A[i + (8 - k) * 2] := 1~end~end~for m = 1 to 3~s := (m - 1) * i~end~ \
    | 1 conflict line=13 place=s processors=2,3~wrote values=2,3~\
    lost processor=1 step=33 line=9~outside array=A index=3 length=3~\
    round step=71 line=12 value=2~round step=33 line=7 value=7~
-- the cells as records
$ pramx plain job --csv & pramx run job --workers 2 --csv
pram 1~cells 3~procs 2~steps 3~init 2 8~code~pid r0~set r1 6~st r0 r1~ \
    | 0 cell,value~0,6~1,6~2,8~
pram 1~cells 1~procs 3~steps 2~code~pid r0~st r1 r0~ | 1 conflict step=2 cell=0 processors=0,1~
pardo 1~rule common~procs i < 4~shared A[4]~shared s~private x~code~A[i] := i~~x := A[i + 2]~\
    s := 7~ \
    | 0 name,index,value~A,0,0~A,1,1~A,2,2~A,3,3~s,,7~gone processor,2,10~gone processor,3,10~
pardo 1~rule common~procs i < 2~shared s~code~s := i~ | 1 conflict line=6 place=s processors=0,1~
$ pramx plain job --csv --why
pram 1~cells 1~procs 1~steps 2~code~set r0 7~ | 0 cell,value~0,0~stopped step=1~
$ pramx cost job
pram 1~cells 1~procs 1~steps 0~init 0 5~code~halt~ \
    | 0 cost of this input~steps 0~processors 1~product 0~work 0~most 0~reading 0~writing 0~\
    needs EREW~same read none~same write none~other value none~done steps=0~
pram 1~cells 1~procs 3~steps 2~code~pid r0~st r1 r0~ \
    | 1 cost of this input~steps 2~processors 3~product 6~work 6~most 3~reading 0~writing 1~\
    needs CRCW priority~same read none~same write step=2 cell=0 processors=0,1~\
    other value step=2 cell=0 processors=0,1~conflict step=2 cell=0 processors=0,1~
pram 1~cells 1~procs 1~steps 1~code~ | 2 text line=6 kind=NoCode~
-- models that do not accept a run, and models that do; a job is judged first
$ pramx check job --model EREW & pramx plain job --model EREW & pramx cost job --model erew --lines
pardo 1~rule common~procs i < 2~shared s = 4~shared A[2]~code~A[i] := s~ \
    | 1 model EREW same read step=2 line=7 place=s processors=0,1~
pram 1~cells 1~procs 3~steps 2~code~pid r0~st r1 r0~ \
    | 1 model EREW same write step=2 cell=0 processors=0,1~
pram 1~cells 4~procs 4~steps 3~code~pid r0~st r0 r0~ | 0 {}
pram 1~cells x~ | 2 text line=2 kind=BadNumber~
$ pramx plain job --model crew
pardo 1~rule common~procs i < 2~shared s = 4~shared A[2]~code~A[i] := s~ \
    | 0 done steps=4~s = 4~A = 4 4~
$ pramx check job --model common
pram 1~cells 1~procs 3~steps 2~code~pid r0~st r1 r0~ \
    | 1 model CRCW common other value step=2 cell=0 processors=0,1~
$ pramx plain job --model priority
pram 1~cells 1~procs 3~steps 2~code~pid r0~st r1 r0~ | 1 conflict step=2 cell=0 processors=0,1~
-- a sum by a tree; a line with a comma, in which two write; a text of the machine
$ pramx cost job --lines
pardo 1~rule crew~const n = 8~procs i < n / 2~shared A[n]~code~for h = 1 to lg(n)~\
    if i < n >> h~A[i] := A[2 * i] + A[2 * i + 1]~end~end~ \
    | 0 line,times,time,operations,most,text~9,3,3,7,4,A[i] := A[2 * i] + A[2 * i + 1]~
pardo 1~rule common~procs i < 4~shared A[4]~shared s~code~if A[i] = 0~s := min(i, 1)~end~ \
    | 1 line,times,time,operations,most,text~7,1,1,4,4,if A[i] = 0~\
    8,1,1,4,4,\"s := min(i, 1)\"~
pram 1~cells 1~procs 1~steps 0~code~halt~ | 0 line,times,time,operations,most,text~
-- sizes: a sum by a tree, a conflict, one that is gone; what is refused
$ pramx sweep job --set *
n=8,2 : pardo 1~rule crew~const n = 4~procs i < n / 2~shared A[n]~code~for h = 1 to lg(n)~\
    if i < n >> h~A[i] := A[2 * i] + A[2 * i + 1]~end~end~ \
    | 0 n,steps,time,operations,processors,needs,end~8,66,3,7,4,EREW,done~2,24,1,1,1,EREW,done~
n=1,2,1 : pardo 1~rule common~const n = 4~procs i < n~shared s~code~s := i~ \
    | 1 n,steps,time,operations,processors,needs,end~1,3,1,1,1,EREW,done~\
    2,2,1,2,2,CRCW priority,conflict~1,3,1,1,1,EREW,done~
n=1,2 --set k=1 : pardo 1~rule crew~const n = 4~const k = 2~procs i < n~shared A[k]~code~\
    A[i] := 7~ \
    | 0 n,steps,time,operations,processors,needs,end~1,3,1,1,1,EREW,done~2,3,1,2,2,EREW,gone~
n=1,0 --set k=1 : same | 2 text line=5 kind=OutOfLimits~
n=1,x : same | 2 set name=n kind=BadNumber~
m=1,2 : same | 2 set name=m kind=UnknownName~
A=1,2 : same | 2 set name=A kind=WrongLength~
A=any:7:100 : same | 2 set name=A kind=BadNumber~
n=1,2 : pram 1~cells 1~procs 1~steps 0~code~halt~ | 2 set name=n kind=UnknownName~
-- the rows of two steps
$ pramx steps job --from 2 --to 3
pram 1~cells 1~procs 3~steps 2~code~pid r0~st r1 r0~ \
    | 1 step,processor,place,instruction,writes,value,next~2,0,1,st r1 r0,cell 0,0,2~\
    2,1,1,st r1 r0,cell 0,1,2~2,2,1,st r1 r0,cell 0,2,2~conflict step=2 cell=0 processors=0,1~
pram 1~cells 1~procs 1~steps 4~code~set r0 7~halt~ \
    | 0 step,processor,place,instruction,writes,value,next~2,0,1,halt,,,2~3,0,2,halted,,,2~\
    done steps=4~0: 0~
-- of a program each row has its line, where the processor has not stopped
pardo 1~rule crew~procs i < 2~shared A[1]~code~A[i] := 7~ \
    | 0 step,processor,place,instruction,writes,value,next,line~2,0,1,st A r3 7,A[0],7,2,6~\
    2,1,1,st A r3 7,,,4,6~3,0,2,halt,,,3,6~3,1,4,out_of_range,,,4,~done steps=3~A = 7~\
    gone processor=1 line=6~
pram 1~cells 1~procs 1~steps 1~code~halt~ | 2 steps step=2~
pram 1~cells 1~procs 1~steps 1~code~ | 2 text line=6 kind=NoCode~
-- rows without the answer: the status tells how the job ended
$ pramx steps job --from 2 --to 3 --csv
pram 1~cells 1~procs 2~steps 2~code~pid r0~st r1 r0~ \
    | 1 step,processor,place,instruction,writes,value,next~2,0,1,st r1 r0,cell 0,0,2~\
    2,1,1,st r1 r0,cell 0,1,2~
pram 1~cells 1~procs 1~steps 2~code~halt~ \
    | 0 step,processor,place,instruction,writes,value,next~2,0,1,halted,,,1~
pardo 1~rule common~procs i < 2~shared s~code~;~s := i~ \
    | 1 step,processor,place,instruction,writes,value,next,line~2,0,1,st s 0 r3,s,0,2,7~\
    2,1,1,st s 0 r3,s,1,2,7~
-- by names, in quotes where they have a comma; a register's name is none
$ pramx steps job --from 3 --to 6 --csv
pardo 1~rule priority~procs i < 2~shared r1~shared A[1, 2]~private x~code~A[0, i] := 7~x := i~\
    r1 := x~ \
    | 0 step,processor,place,instruction,writes,value,next,line~3,0,2,st A r0 7,\"A[0,0]\",7,3,8~\
    3,1,2,st A r0 7,\"A[0,1]\",7,3,8~4,0,3,st x r3 r3,cell 3,0,4,9~\
    4,1,3,st x r3 r3,cell 4,1,4,9~5,0,4,ld r0 x r3,r0,0,5,10~5,1,4,ld r0 x r3,r0,1,5,10~\
    6,0,5,st 0..0 0 r0,cell 0,0,6,10~6,1,5,st 0..0 0 r0,cell 0,1,6,10~
-- line by line: one `if` and its `else`, a loop, one who is gone, a conflict, a text of the machine
$ pramx trace job
pardo 1~rule crew~procs i < 3~shared s~private x~code~if i~x := 4~else~x := 9~end~ \
    | 0 step,line,active,name,index,value~2,7,3,,,~5,8,2,,,~8,8,,x,1,4~8,8,,x,2,4~9,9,3,,,~\
    12,10,1,,,~15,10,,x,0,9~done steps=16~s = 0~
pardo 1~rule crew~procs i < 2~shared s~code~for h = 1 to 2~if i < 1~s := s + h~end~end~ \
    | 0 step,line,active,name,index,value~2,6,2,,,~6,7,2,,,~8,8,1,,,~14,8,,s,,1~15,10,2,,,~\
    21,7,2,,,~23,8,1,,,~29,8,,s,,3~30,10,2,,,~done steps=33~s = 3~
pardo 1~rule crew~procs i < 2~shared A[1]~code~A[i] := 7~ \
    | 0 step,line,active,name,index,value~2,6,2,,,~2,6,,A,0,7~2,6,,gone processor,1,~\
    done steps=3~A = 7~gone processor=1 line=6~
pram 1~cells 1~procs 1~steps 1~code~halt~ \
    | 0 step,line,active,name,index,value~done steps=1~0: 0~
pram 1~cells 1~procs 1~steps 1~code~ | 2 text line=6 kind=NoCode~
$ pramx trace job --csv
pardo 1~rule common~procs i < 2~shared s~code~;~s := i~ \
    | 1 step,line,active,name,index,value~2,7,2,,,~2,7,,s,,0~2,7,,s,,1~
$ pramx replay job --workers 1 --csv
pram 1~cells 1~procs 1~steps 0~code~halt~ \
    | 0 tick,worker,op,word,before,after~1,0,load,1,0,0~2,0,load,0,0,0~
$ pramx replay job --workers 1
pram 1~cells 1~procs 1~steps 0~init 0 5~code~halt~ \
    | 0 tick,worker,op,word,before,after~1,0,load,1,0,0~2,0,load,0,0,0~done steps=0~0: 5~
";

// Replays: answers, traces, and plans that are refused.
const REPLAYS: &str = "\
$ pramx replay job --workers * --plan plan
-- by so many workers: rows above the answer, one for each atomic step and one for the header
1 : pram 1~cells 2~procs 2~steps 5~init 0 7~init 1 9~code~pid r0~set r1 1~sub r1 r1 r0~ld r2 r1~\
    st r0 r2~ | 0 {538}done steps=5~0: 9~1: 7~
2 : same | 0 {631}done steps=5~0: 9~1: 7~
4 : same | 0 {1261}done steps=5~0: 9~1: 7~
1 : pram 1~cells 5~procs 4~steps 5~init 1 1~init 3 1~code~pid r0~ld r1 r0~jz r1 end~set r2 4~\
    st r2 r1~end: halt~ | 0 {1213}done steps=5~0: 0~1: 1~2: 0~3: 1~4: 1~
2 : same | 0 {1594}done steps=5~0: 0~1: 1~2: 0~3: 1~4: 1~
4 : same | 0 {1777}done steps=5~0: 0~1: 1~2: 0~3: 1~4: 1~
1 : pram 1~cells 5~procs 4~steps 5~init 1 1~init 3 1~code~pid r0~ld r1 r0~jz r1 end~set r2 4~\
    st r2 r0~end: halt~ | 1 {1214}conflict step=5 cell=4 processors=1,3~
2 : same | 1 {1595}conflict step=5 cell=4 processors=1,3~
4 : same | 1 {1774}conflict step=5 cell=4 processors=1,3~
1 : pram 1~cells 2~procs 4~steps 4~code~pid r0~set r1 1~and r2 r0 r1~st r2 r0~ \
    | 1 {1015}conflict step=4 cell=0 processors=0,2~
2 : same | 1 {1325}conflict step=4 cell=0 processors=0,2~
4 : same | 1 {1467}conflict step=4 cell=0 processors=0,2~
1 : pram 1~cells 1~procs 1~steps 3~code~set r1 1~sub r2 r0 r1~st r0 r2~ \
    | 0 {104}done steps=3~0: 4294967295~
2 : same | 0 {207}done steps=3~0: 4294967295~
4 : same | 0 {413}done steps=3~0: 4294967295~
1 : pram 1~cells 2~procs 2~steps 5~init 0 5~init 1 9~code~pid r0~set r1 1~add r2 r0 r1~ld r3 r2~\
    st r0 r3~ | 0 {520}done steps=5~0: 9~1: 9~
2 : same | 0 {631}done steps=5~0: 9~1: 9~
4 : same | 0 {1241}done steps=5~0: 9~1: 9~
1 : pram 1~cells 3~procs 3~steps 4~code~pid r0~set r1 10~add r1 r0 r1~st r0 r1~ \
    | 0 {935}done steps=4~0: 10~1: 11~2: 12~
2 : same | 0 {1318}done steps=4~0: 10~1: 11~2: 12~
4 : same | 0 {1450}done steps=4~0: 10~1: 11~2: 12~
-- plans are obeyed
2 : pram 1~cells 1~procs 1~steps 1~code~set r0 7~ under 0,go,17~1,go,23~0,go,1~ \
    | 0 {48}done steps=1~0: 0~
1 : pram 1~cells 2~procs 2~steps 1~code~pid r0~ under 0,go,15~0,back,0~ \
    | 0 {105}done steps=1~0: 0~1: 0~
1 : pram 1~cells 1~procs 1~steps 1~code~set r0 7~ under 0,go,8~0,stop,0~ | 3 {9}unfinished step=0~
-- each row of the trace
2 : pram 1~cells 1~procs 1~steps 0~init 0 5~code~halt~ under 1,go,2~ \
    | 0 tick,worker,op,word,before,after~1,1,load,1,0,0~2,1,load,0,0,0~3,0,load,1,0,0~\
    4,0,load,0,0,0~done steps=0~0: 5~
1 : same under 1,go,2~ | 2 plan row=2 kind=BadWorker~
-- plans are refused
4 : pram 1~cells 5~procs 4~steps 5~init 1 1~init 3 1~code~pid r0~ld r1 r0~jz r1 end~set r2 4~\
    st r2 r1~end: halt~ under 4,go,1~ | 2 plan row=2 kind=BadWorker~
4 : same under 0,back,1~ | 2 plan row=2 kind=BadNumber~
4 : same under 0,run,1~ | 2 plan row=2 kind=BadAct~
4 : same under 0,go~ | 2 plan row=2 kind=BadRow~
4 : same under 0,stop,0~0,go,1~ | 2 plan row=3 kind=AfterStop~
-- the job is judged before its plan
4 : pram 1~cells 0~ under 4,go,1~ | 2 text line=2 kind=OutOfLimits~
$ pramx replay job --workers 4 --random 7
pram 1~cells 0~ | 2 text line=2 kind=OutOfLimits~
";

#[test]
fn lines_are_answered(rt: HostRuntime) -> Result<(), Fail> {
    expect(&rt, rt.alloc(), ANSWERS)?;
    expect(&rt, rt.alloc(), REPLAYS)
}
